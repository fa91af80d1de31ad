// Carrying the schema of the old cluster into the new one.
ghost use Rattle.std.specs.Prelude.{◌≡◌, ◌≢◌, true, Ok, Err, IfOk, OnOk};
ghost use Rattle.fs_model.specs.Trail.{Goes, Unchanged};
ghost use Rattle.control_file.specs.declared.releases.Release.TheVariants.{V15, V16};
ghost use Rattle.catalog.specs.Cluster.{Cluster, started};
ghost use Rattle.new_names.specs.Frame.{MakesListed};
ghost use Rattle.new_names.specs.Room.{HasRoomFor};
ghost use Rattle.new_names.specs.Standing.{AllStand};
ghost use Rattle.catalog_server.specs.Profile.{profile_of};
ghost use Rattle.catalog_server.specs.ReplayNames.{new_names, listed_names};
ghost use Rattle.restore.specs.Causes.{on_side, HasRestoreCause, restore_error_of, IsNoChange, IsUnrefused};

use crate::RestoreError;
use catalog::Catalog;
use catalog_server::{Server, ServerError};
use control_file::{Job, Release, Side};
use fs_model::Fs;
use std::alloc::Global;

// What a server's answer about one cluster is here.
fn error_on(side: Side, error: ServerError) -> RestoreError
    ensures { result ≡ Rattle.restore.specs.Causes.error_on side error }
{
    match error {
        ServerError::Failed => RestoreError::Server,
        ServerError::Text { line, cause: _ } => RestoreError::Text(side, line),
        ServerError::Fs(error) => RestoreError::Fs(side, error),
        ServerError::OutOfMemory => RestoreError::OutOfMemory,
    }
}

// Replays the dump of the old cluster on the new one.
fn replay_dump<F: Fs, S: Server<F>>(
    alloc: Global,
    server: &mut S,
    fs: &mut F,
    job: &Job,
) -> Result<(), RestoreError>
    ensures told { F.told fs.new ≡ F.told fs.old }
    ensures firm { F.firm fs.new ≡ F.firm fs.old }
    ensures calls { F.told fs.old ≡ true → (c : Cluster) → S.catalog_of job.now.old V15 (profile_of (F.trail fs.old).present job.now.old) ≡ Ok c → S.catalog_of job.now.new V16 (profile_of (F.trail fs.old).present job.now.new) ≡ Ok (started c.bootstrap) → Goes (MakesListed (listed_names job.now.new V16 (started c.bootstrap) c) (F.trail fs.old).present) (F.trail fs.old) (F.trail fs.new) }
    ensures unrefused { F.told fs.old ≡ true → (c : Cluster) → S.catalog_of job.now.old V15 (profile_of (F.trail fs.old).present job.now.old) ≡ Ok c → S.catalog_of job.now.new V16 (profile_of (F.trail fs.old).present job.now.new) ≡ Ok (started c.bootstrap) → HasRoomFor (F.trail fs.old).present (new_names job.now.new V16 (started c.bootstrap) c) → IsUnrefused result }
    ensures made { F.told fs.old ≡ true → (c : Cluster) → S.catalog_of job.now.old V15 (profile_of (F.trail fs.old).present job.now.old) ≡ Ok c → S.catalog_of job.now.new V16 (profile_of (F.trail fs.old).present job.now.new) ≡ Ok (started c.bootstrap) → OnOk result (AllStand (F.trail fs.new).present (listed_names job.now.new V16 (started c.bootstrap) c)) }
    ensures unchanged_catalogs { F.told fs.old ≡ true → (c : Cluster) → S.catalog_of job.now.old V15 (profile_of (F.trail fs.old).present job.now.old) ≡ Ok c → S.catalog_of job.now.new V16 (profile_of (F.trail fs.old).present job.now.new) ≡ Ok (started c.bootstrap) → IsNoChange result }
    ensures no_difference { result ≢ Err RestoreError.Differs }
    ensures carried { F.told fs.old ≡ true → (c : Cluster) → S.catalog_of job.now.old V15 (profile_of (F.trail fs.old).present job.now.old) ≡ Ok c → S.catalog_of job.now.new V16 (profile_of (F.trail fs.old).present job.now.new) ≡ Ok (started c.bootstrap) → OnOk result (S.catalog_of job.now.new V16 (profile_of (F.trail fs.new).present job.now.new) ≡ Ok c) }
    ensures cause { HasRestoreCause (F.firm fs.old) (F.counts fs.old) (F.counts fs.new) (S.counts server.old) (S.counts server.new) (restore_error_of result) }
{
    let text = match server.dump(alloc, fs, &job.old, Release::V15) {
        Ok(text) => text,
        Err(error) => return Err(error_on(Side::Old, error)),
    };
    match server.replay(alloc, fs, &job.new, Release::V16, &text) {
        Ok(()) => Ok(()),
        Err(error) => Err(error_on(Side::New, error)),
    }
}

// The new cluster's catalog, where it is the old one's.
fn read_back<F: Fs, S: Server<F>>(
    alloc: Global,
    server: &mut S,
    fs: &mut F,
    job: &Job,
    old: &Catalog,
) -> Result<Catalog, RestoreError>
    ensures told { F.told fs.new ≡ F.told fs.old }
    ensures firm { F.firm fs.new ≡ F.firm fs.old }
    ensures unchanged { F.told fs.old ≡ true → Unchanged (F.trail fs.old) (F.trail fs.new) }
    ensures unrefused { F.told fs.old ≡ true → IsUnrefused result }
    ensures equal { IfOk result (λ c. c ≡ old.now) }
    ensures carried { F.told fs.old ≡ true → OnOk result (S.catalog_of job.now.new V16 (profile_of (F.trail fs.old).present job.now.new) ≡ Ok old.now) }
    ensures differs { F.told fs.old ≡ true → result ≡ Err RestoreError.Differs → S.catalog_of job.now.new V16 (profile_of (F.trail fs.old).present job.now.new) ≢ Ok old.now }
    ensures unchanged_catalogs { F.told fs.old ≡ true → S.catalog_of job.now.new V16 (profile_of (F.trail fs.old).present job.now.new) ≡ Ok old.now → IsNoChange result }
    ensures cause { HasRestoreCause (F.firm fs.old) (F.counts fs.old) (F.counts fs.new) (S.counts server.old) (S.counts server.new) (restore_error_of result) }
{
    match server.read_catalog(alloc, fs, &job.new, Release::V16) {
        Ok(new) => {
            if new.same(old) {
                Ok(new)
            } else {
                Err(RestoreError::Differs)
            }
        }
        Err(error) => Err(error_on(Side::New, error)),
    }
}

/// Dumps the old cluster's catalog, replays the dump on the new cluster, and gives the catalog that it then has, which is
/// the old one's.
pub fn carry_schema<F: Fs, S: Server<F>>(
    alloc: Global,
    server: &mut S,
    fs: &mut F,
    job: &Job,
    old: &Catalog,
) -> Result<Catalog, RestoreError>
    ensures told { F.told fs.new ≡ F.told fs.old }
    ensures firm { F.firm fs.new ≡ F.firm fs.old }
    ensures equal { IfOk result (λ c. c ≡ old.now) }
    ensures carried { F.told fs.old ≡ true → OnOk result (S.catalog_of job.now.new V16 (profile_of (F.trail fs.new).present job.now.new) ≡ Ok old.now) }
    ensures differs { F.told fs.old ≡ true → result ≡ Err RestoreError.Differs → S.catalog_of job.now.new V16 (profile_of (F.trail fs.new).present job.now.new) ≢ Ok old.now }
    // Where the old catalog was read before, and the new cluster is as its bootstrap role made it.
    ensures calls { F.told fs.old ≡ true → S.catalog_of job.now.old V15 (profile_of (F.trail fs.old).present job.now.old) ≡ Ok old.now → S.catalog_of job.now.new V16 (profile_of (F.trail fs.old).present job.now.new) ≡ Ok (started old.now.bootstrap) → Goes (MakesListed (listed_names job.now.new V16 (started old.now.bootstrap) old.now) (F.trail fs.old).present) (F.trail fs.old) (F.trail fs.new) }
    // And where the names are free, each in a directory that is there or is made before it.
    ensures unrefused { F.told fs.old ≡ true → S.catalog_of job.now.old V15 (profile_of (F.trail fs.old).present job.now.old) ≡ Ok old.now → S.catalog_of job.now.new V16 (profile_of (F.trail fs.old).present job.now.new) ≡ Ok (started old.now.bootstrap) → HasRoomFor (F.trail fs.old).present (new_names job.now.new V16 (started old.now.bootstrap) old.now) → IsUnrefused result }
    ensures made { F.told fs.old ≡ true → S.catalog_of job.now.old V15 (profile_of (F.trail fs.old).present job.now.old) ≡ Ok old.now → S.catalog_of job.now.new V16 (profile_of (F.trail fs.old).present job.now.new) ≡ Ok (started old.now.bootstrap) → OnOk result (AllStand (F.trail fs.new).present (listed_names job.now.new V16 (started old.now.bootstrap) old.now)) }
    ensures unchanged_catalogs { F.told fs.old ≡ true → S.catalog_of job.now.old V15 (profile_of (F.trail fs.old).present job.now.old) ≡ Ok old.now → S.catalog_of job.now.new V16 (profile_of (F.trail fs.old).present job.now.new) ≡ Ok (started old.now.bootstrap) → IsNoChange result }
    ensures cause { HasRestoreCause (F.firm fs.old) (F.counts fs.old) (F.counts fs.new) (S.counts server.old) (S.counts server.new) (restore_error_of result) }
{
    replay_dump(alloc, server, fs, job)?;
    read_back(alloc, server, fs, job, old)
}

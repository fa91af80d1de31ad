// Carrying the directories that say how transactions ended.
ghost use Rattle.std.specs.Prelude.{◌≡◌, ◌≢◌, ◌<◌, ◌++◌, [], ◌∷◌, true, None, length, map, IfOk, IfErr, OnOk};
ghost use Rattle.fs_model.specs.declared.error.FsError.TheVariants.{OutOfMemory};
ghost use Rattle.fs_model.specs.Names.{Path};
ghost use Rattle.fs_model.specs.Trail.{Goes, Since, DecidedBy, HasCause, OthersStay, error_of, unless_lack};
ghost use Rattle.crash_safety.specs.Frame.{IsInside};
ghost use Rattle.crash_safety.specs.Upgrade.{Upgrade, IsReady};
ghost use Rattle.crash_safety.specs.Sound.{Stage, Moving, Sound};
ghost use Rattle.status_transfer.specs.Carried.{CarriesInto, ChangesOnlyIn, CarriesDir, HoldsFiles};
ghost use Rattle.status_transfer.specs.Status.{multixact_dirs, status_dirs, CarriesMultixacts, CarriesStatus, HoldsMultixacts, HoldsStatus};

use crate::dirs::carry_dir;
use control_file::Job;
use fs_model::{Fs, FsError, Path};
use std::alloc::{AllocError, Global};

/// How many bytes are copied at a time.
const BUFFER_BYTES: usize = 65_536;

// Zeros to copy through.
fn zeros(alloc: Global, count: usize) -> Result<Vec<u8>, AllocError>
    requires { 0 < count }
    ensures { IfOk result (λ zeros. 0 < length zeros.items) }
{
    Ok(vec![in alloc; 0u8; count]?)
}

// The paths of these names in the old cluster and in the new one.
fn in_both(job: &Job, names: &[&str]) -> Result<(Path, Path), FsError>
    ensures old { IfOk result (λ paths. paths.0 ≡ job.now.old ++ map (λ name. name.now) names.now) }
    ensures new { IfOk result (λ paths. paths.1 ≡ job.now.new ++ map (λ name. name.now) names.now) }
    ensures lack { IfErr result (λ error. error ≡ OutOfMemory) }
{
    match (job.old.join(names), job.new.join(names)) {
        (Ok(old), Ok(new)) => Ok((old, new)),
        _ => Err(FsError::OutOfMemory),
    }
}

// Makes the directory of these names in the new cluster have exactly the files of the old cluster's.
fn carry_one<F: Fs>(
    alloc: Global,
    fs: &mut F,
    job: &Job,
    names: &[&str],
    buffer: &mut [u8],
) -> Result<(), FsError>
    requires { 0 < length buffer.old }
    ensures told { F.told fs.new ≡ F.told fs.old }
    ensures firm { F.firm fs.new ≡ F.firm fs.old }
    ensures calls { F.told fs.old ≡ true → Goes (CarriesInto ((job.now.new ++ map (λ name. name.now) names.now) ∷ []) (F.trail fs.old).present) (F.trail fs.old) (F.trail fs.new) }
    ensures unrefused { F.told fs.old ≡ true → job.now.old ≢ job.now.new → HoldsFiles (F.trail fs.old).present.names (job.now.old ++ map (λ name. name.now) names.now) → HoldsFiles (F.trail fs.old).present.names (job.now.new ++ map (λ name. name.now) names.now) → DecidedBy None result }
    ensures carried { F.told fs.old ≡ true → job.now.old ≢ job.now.new → OnOk result (CarriesDir (F.trail fs.old).present (job.now.old ++ map (λ name. name.now) names.now) (job.now.new ++ map (λ name. name.now) names.now) (F.trail fs.new).present) }
    ensures cause { HasCause (F.firm fs.old) (F.counts fs.old) (F.counts fs.new) (unless_lack (error_of result)) }
    ensures others { OthersStay (F.counts fs.old) (F.counts fs.new) (error_of result) }
{
    let (from, to) = in_both(job, names)?;
    carry_dir(alloc, fs, &from, &to, buffer)
}

// Makes both directories of multixacts of the new cluster have exactly the files of the old cluster's.
fn carry_multixacts<F: Fs>(
    alloc: Global,
    fs: &mut F,
    job: &Job,
    buffer: &mut [u8],
) -> Result<(), FsError>
    requires { 0 < length buffer.old }
    ensures told { F.told fs.new ≡ F.told fs.old }
    ensures firm { F.firm fs.new ≡ F.firm fs.old }
    ensures calls { F.told fs.old ≡ true → Goes (CarriesInto (multixact_dirs job.now.new) (F.trail fs.old).present) (F.trail fs.old) (F.trail fs.new) }
    ensures unrefused { F.told fs.old ≡ true → job.now.old ≢ job.now.new → HoldsMultixacts (F.trail fs.old).present.names job.now.old → HoldsMultixacts (F.trail fs.old).present.names job.now.new → DecidedBy None result }
    ensures carried { F.told fs.old ≡ true → job.now.old ≢ job.now.new → OnOk result (CarriesMultixacts (F.trail fs.old).present job.now.old job.now.new (F.trail fs.new).present) }
    ensures cause { HasCause (F.firm fs.old) (F.counts fs.old) (F.counts fs.new) (unless_lack (error_of result)) }
    ensures others { OthersStay (F.counts fs.old) (F.counts fs.new) (error_of result) }
{
    // It says that the state is well-formed.
    let _ = fs.moment();
    carry_one(alloc, fs, job, &["pg_multixact", "offsets"], buffer)?;
    carry_one(alloc, fs, job, &["pg_multixact", "members"], buffer)
}

/// Makes `pg_xact`, `pg_multixact/offsets` and `pg_multixact/members` of the new cluster have exactly the files of the
/// old cluster's, through a buffer of 65,536 bytes. After an error a beginning of this is done, as `carry_dir` leaves it.
/// (`copy_xact_xlog_xid` of `src/bin/pg_upgrade/pg_upgrade.c`.)
pub fn carry_status<F: Fs>(alloc: Global, fs: &mut F, job: &Job) -> Result<(), FsError>
    ensures told { F.told fs.new ≡ F.told fs.old }
    ensures firm { F.firm fs.new ≡ F.firm fs.old }
    ensures calls { F.told fs.old ≡ true → Goes (CarriesInto (status_dirs job.now.new) (F.trail fs.old).present) (F.trail fs.old) (F.trail fs.new) }
    ensures frame { F.told fs.old ≡ true → Since (ChangesOnlyIn (status_dirs job.now.new) (F.trail fs.old).present) (F.trail fs.old) (F.trail fs.new) }
    ensures sound { F.told fs.old ≡ true → (u : Upgrade) → IsReady u → (stage : Stage) → (stage ≡ Moving → ⊥) → ((path : Path) → IsInside (status_dirs job.now.new) path → IsInside u.new_tops path) → Sound u stage (F.trail fs.old).present → Since (Sound u stage) (F.trail fs.old) (F.trail fs.new) }
    ensures unrefused { F.told fs.old ≡ true → job.now.old ≢ job.now.new → HoldsStatus (F.trail fs.old).present.names job.now.old → HoldsStatus (F.trail fs.old).present.names job.now.new → DecidedBy None result }
    ensures carried { F.told fs.old ≡ true → job.now.old ≢ job.now.new → OnOk result (CarriesStatus (F.trail fs.old).present job.now.old job.now.new (F.trail fs.new).present) }
    ensures cause { HasCause (F.firm fs.old) (F.counts fs.old) (F.counts fs.new) (unless_lack (error_of result)) }
    ensures others { OthersStay (F.counts fs.old) (F.counts fs.new) (error_of result) }
{
    // It says that the state is well-formed.
    let _ = fs.moment();
    let mut buffer = zeros(alloc, BUFFER_BYTES)?;
    carry_one(alloc, fs, job, &["pg_xact"], &mut buffer)?;
    carry_multixacts(alloc, fs, job, &mut buffer)
}

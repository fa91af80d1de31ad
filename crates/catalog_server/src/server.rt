// A catalog server, by what it reads of a tree and what a replay makes of it.
ghost use Rattle.std.specs.Prelude.{◌≡◌, true, Result, Ok, Err, IfOk, OnOk};
ghost use Rattle.fs_model.specs.Names.{Path};
ghost use Rattle.fs_model.specs.Trail.{Goes, Unchanged};
ghost use Rattle.control_file.specs.declared.releases.Release.{Release};
ghost use Rattle.catalog.specs.Cluster.{Cluster, started};
ghost use Rattle.dump_grammar.specs.declared.error.TextError.{TextError};
ghost use Rattle.catalog_server.specs.Profile.{Profile, profile_of};
ghost use Rattle.catalog_server.specs.Replayed.{replayed, replayed_over};
ghost use Rattle.catalog_server.specs.ReplayNames.{new_names, listed_names};
ghost use Rattle.catalog_server.specs.ServerFrame.{ReplayCalls};
ghost use Rattle.new_names.specs.Room.{HasRoomFor};
ghost use Rattle.new_names.specs.Standing.{AllStand};
ghost use Rattle.catalog_server.specs.Answers.{ServerCounts, HasServerCause, server_error_of, IfText, OnText, IsUnrefused};

use crate::ServerError;
use catalog::Catalog;
use control_file::Release;
use fs_model::{Fs, Path};
use std::alloc::Global;

/// A server of the catalogs of clusters.
pub trait Server<F: Fs> {
    /// What it reads of the cluster at a root: a catalog, or none, with a line and a cause. It sees the cluster's profile
    /// alone.
    ghost catalog_of: { Path → Release → Profile → Result Cluster TextError };

    /// How often it failed and answered `Text`, and the line of the last `Text`.
    ghost counts: { Self → ServerCounts };

    /// The catalog of the cluster at a root. No state is changed.
    fn read_catalog(
        &mut self,
        alloc: Global,
        fs: &mut F,
        root: &Path,
        release: Release,
    ) -> Result<Catalog, ServerError>
        ensures told { F.told fs.new ≡ F.told fs.old }
        ensures firm { F.firm fs.new ≡ F.firm fs.old }
        ensures unchanged { F.told fs.old ≡ true → Unchanged (F.trail fs.old) (F.trail fs.new) }
        ensures catalog { F.told fs.old ≡ true → IfOk result (λ c. catalog_of root.now release (profile_of (F.trail fs.old).present root.now) ≡ Ok c) }
        ensures text { F.told fs.old ≡ true → IfText result (λ e. catalog_of root.now release (profile_of (F.trail fs.old).present root.now) ≡ Err e) }
        ensures unrefused { F.told fs.old ≡ true → IsUnrefused result }
        ensures cause { HasServerCause (F.firm fs.old) (F.counts fs.old) (F.counts fs.new) (counts self.old) (counts self.new) (server_error_of result) };

    /// A text that makes the catalog of the cluster at a root out of one that its bootstrap role starts with. No state is
    /// changed.
    fn dump(
        &mut self,
        alloc: Global,
        fs: &mut F,
        root: &Path,
        release: Release,
    ) -> Result<Vec<u8>, ServerError>
        ensures told { F.told fs.new ≡ F.told fs.old }
        ensures firm { F.firm fs.new ≡ F.firm fs.old }
        ensures unchanged { F.told fs.old ≡ true → Unchanged (F.trail fs.old) (F.trail fs.new) }
        // A replay where that start is read never refuses it.
        ensures leads { F.told fs.old ≡ true → IfOk result (λ text. (c : Cluster) × (catalog_of root.now release (profile_of (F.trail fs.old).present root.now) ≡ Ok c) × (replayed (started c.bootstrap) text.items ≡ Ok c)) }
        ensures text { F.told fs.old ≡ true → IfText result (λ e. catalog_of root.now release (profile_of (F.trail fs.old).present root.now) ≡ Err e) }
        ensures unrefused { F.told fs.old ≡ true → IsUnrefused result }
        ensures cause { HasServerCause (F.firm fs.old) (F.counts fs.old) (F.counts fs.new) (counts self.old) (counts self.new) (server_error_of result) };

    /// Replays a text over the catalog of the cluster at a root. `Text` comes before the first change. After another error
    /// some of the names that it makes may stand. What every state on the way has follows from the calls
    /// (`replay_has_frame`, `replay_keeps_sound`).
    fn replay(
        &mut self,
        alloc: Global,
        fs: &mut F,
        root: &Path,
        release: Release,
        text: &[u8],
    ) -> Result<(), ServerError>
        ensures told { F.told fs.new ≡ F.told fs.old }
        ensures firm { F.firm fs.new ≡ F.firm fs.old }
        ensures calls { F.told fs.old ≡ true → Goes (ReplayCalls root.now release (catalog_of root.now release (profile_of (F.trail fs.old).present root.now)) text.now (F.trail fs.old).present) (F.trail fs.old) (F.trail fs.new) }
        ensures replayed { F.told fs.old ≡ true → OnOk result ((c : Cluster) × (replayed_over (catalog_of root.now release (profile_of (F.trail fs.old).present root.now)) text.now ≡ Ok c) × (catalog_of root.now release (profile_of (F.trail fs.new).present root.now) ≡ Ok c)) }
        ensures made { F.told fs.old ≡ true → OnOk result ((before after : Cluster) → catalog_of root.now release (profile_of (F.trail fs.old).present root.now) ≡ Ok before → replayed before text.now ≡ Ok after → AllStand (F.trail fs.new).present (listed_names root.now release before after)) }
        ensures text { F.told fs.old ≡ true → IfText result (λ e. replayed_over (catalog_of root.now release (profile_of (F.trail fs.old).present root.now)) text.now ≡ Err e) }
        // Where the names are free, and each stands in a directory that is there or is made before it.
        ensures unrefused { F.told fs.old ≡ true → (before after : Cluster) → catalog_of root.now release (profile_of (F.trail fs.old).present root.now) ≡ Ok before → replayed before text.now ≡ Ok after → HasRoomFor (F.trail fs.old).present (new_names root.now release before after) → IsUnrefused result }
        ensures unchanged { F.told fs.old ≡ true → OnText result (Unchanged (F.trail fs.old) (F.trail fs.new)) }
        ensures cause { HasServerCause (F.firm fs.old) (F.counts fs.old) (F.counts fs.new) (counts self.old) (counts self.new) (server_error_of result) };
}

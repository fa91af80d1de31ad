// The last sync and the mark.
ghost use Rattle.std.specs.Prelude.{◌≡◌, true, None, OnOk};
ghost use Rattle.std.specs.List.{AllByRecursion};
ghost use Rattle.fs_model.specs.Names.{Path};
ghost use Rattle.fs_model.specs.Calls.{Stats, SyncsDir, refusal};
ghost use Rattle.fs_model.specs.Crash.{Settled};
ghost use Rattle.fs_model.specs.Trail.{Goes, DecidedBy, HasCause, OthersStay, error_of, unless_lack};
ghost use Rattle.crash_safety.specs.Frame.{IsInside};
ghost use Rattle.crash_safety.specs.Calling.{Syncs};
ghost use Rattle.crash_safety.specs.Tracked.{Tracked};
ghost use Rattle.crash_safety.specs.Synced.{IsSynced, AreQuiet, NeedsOnly};
ghost use Rattle.last_sync.specs.Finished.{IsFileAt, CanFinish, MarksAfterSync};

use crate::Places;
use crate::mark::put_mark;
use crate::trees::{sync_holders, sync_trees};
use fs_model::{Fs, FsError, Path};
use std::alloc::Global;

// Puts trees, and then the directories that hold them, on the disk.
fn sync_all<F: Fs>(
    alloc: Global,
    fs: &mut F,
    tops: &[Path],
    holders: &[Path],
) -> Result<(), FsError>
    ensures told { F.told fs.new ≡ F.told fs.old }
    ensures firm { F.firm fs.new ≡ F.firm fs.old }
    ensures calls { F.told fs.old ≡ true → Goes Syncs (F.trail fs.old) (F.trail fs.new) }
    ensures synced { F.told fs.old ≡ true → OnOk result (IsSynced tops.now (F.trail fs.new).present) }
    ensures quiet { F.told fs.old ≡ true → OnOk result (AreQuiet holders.now (F.trail fs.new).present) }
    ensures unrefused { F.told fs.old ≡ true → AllByRecursion (λ top. refusal (F.trail fs.old).present (Stats top) ≡ None) tops.now → AllByRecursion (λ holder. refusal (F.trail fs.old).present (SyncsDir holder) ≡ None) holders.now → DecidedBy None result }
    ensures cause { HasCause (F.firm fs.old) (F.counts fs.old) (F.counts fs.new) (unless_lack (error_of result)) }
    ensures others { OthersStay (F.counts fs.old) (F.counts fs.new) (error_of result) }
{
    sync_trees(alloc, fs, tops)?;
    sync_holders(fs, holders)
}

/// Puts every file and directory of the new cluster, and its tablespaces' locations, on the disk; then makes the mark, and
/// puts it and its directory there. After an error the mark stands only if all else is on the disk.
/// (`initdb --sync-only`, which `src/bin/pg_upgrade/pg_upgrade.c` calls at its end; the mark is this tool's own.)
pub fn finish_cluster<F: Fs>(alloc: Global, fs: &mut F, places: &Places) -> Result<(), FsError>
    ensures told { F.told fs.new ≡ F.told fs.old }
    ensures firm { F.firm fs.new ≡ F.firm fs.old }
    ensures marked { F.told fs.old ≡ true → MarksAfterSync places.now (F.trail fs.old) (F.trail fs.new) }
    ensures settled { F.told fs.old ≡ true → (rewritten : Path) → IsInside places.now.tops.items rewritten → Tracked (F.trail fs.old).present → NeedsOnly places.now.tops.items places.now.holders.items rewritten (F.trail fs.old).present → OnOk result (Settled (F.trail fs.new).present) }
    ensures stands { F.told fs.old ≡ true → OnOk result (IsFileAt (F.trail fs.new).present places.now.mark) }
    ensures unrefused { F.told fs.old ≡ true → CanFinish places.now (F.trail fs.old).present → DecidedBy None result }
    ensures cause { HasCause (F.firm fs.old) (F.counts fs.old) (F.counts fs.new) (unless_lack (error_of result)) }
    ensures others { OthersStay (F.counts fs.old) (F.counts fs.new) (error_of result) }
{
    sync_all(alloc, fs, &places.tops, &places.holders)?;
    put_mark(fs, &places.mark, &places.mark_dir)
}

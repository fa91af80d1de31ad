// Putting trees and single directories on the disk.
ghost use Rattle.std.specs.Prelude.{◌≡◌, true, None, OnOk};
ghost use Rattle.std.specs.List.{AllByRecursion};
ghost use Rattle.fs_model.specs.Calls.{Stats, SyncsDir, refusal};
ghost use Rattle.fs_model.specs.Trail.{Goes, DecidedBy, HasCause, OthersStay, error_of, unless_lack};
ghost use Rattle.crash_safety.specs.Calling.{Syncs};
ghost use Rattle.crash_safety.specs.Synced.{IsSynced, AreQuiet};
ghost use Rattle.fs_tools.specs.TreeSync.{IsQuiet};

use fs_model::{Fs, FsError, Path};
use fs_tools::sync_tree;
use std::alloc::Global;

// Puts each of these trees on the disk.
pub(crate) fn sync_trees<F: Fs>(alloc: Global, fs: &mut F, tops: &[Path]) -> Result<(), FsError>
    ensures told { F.told fs.new ≡ F.told fs.old }
    ensures firm { F.firm fs.new ≡ F.firm fs.old }
    ensures calls { F.told fs.old ≡ true → Goes Syncs (F.trail fs.old) (F.trail fs.new) }
    ensures synced { F.told fs.old ≡ true → OnOk result (IsSynced tops.now (F.trail fs.new).present) }
    ensures unrefused { F.told fs.old ≡ true → AllByRecursion (λ top. refusal (F.trail fs.old).present (Stats top) ≡ None) tops.now → DecidedBy None result }
    ensures cause { HasCause (F.firm fs.old) (F.counts fs.old) (F.counts fs.new) (unless_lack (error_of result)) }
    ensures others { OthersStay (F.counts fs.old) (F.counts fs.new) (error_of result) }
{
    for top in tops {
        sync_tree(alloc, fs, top)?;
    }
    Ok(())
}

// Puts the names in each of these directories on the disk.
pub(crate) fn sync_holders<F: Fs>(fs: &mut F, holders: &[Path]) -> Result<(), FsError>
    ensures told { F.told fs.new ≡ F.told fs.old }
    ensures firm { F.firm fs.new ≡ F.firm fs.old }
    ensures calls { F.told fs.old ≡ true → Goes Syncs (F.trail fs.old) (F.trail fs.new) }
    ensures quiet { F.told fs.old ≡ true → OnOk result (AreQuiet holders.now (F.trail fs.new).present) }
    ensures unrefused { F.told fs.old ≡ true → AllByRecursion (λ holder. refusal (F.trail fs.old).present (SyncsDir holder) ≡ None) holders.now → DecidedBy None result }
    ensures cause { HasCause (F.firm fs.old) (F.counts fs.old) (F.counts fs.new) (error_of result) }
    ensures others { OthersStay (F.counts fs.old) (F.counts fs.new) (error_of result) }
{
    for holder in holders {
        fs.sync_dir(holder)?;
    }
    Ok(())
}

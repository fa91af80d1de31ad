// Going over all names of several directories.
ghost use Rattle.std.specs.Prelude.{◌≡◌, ◌∷◌, [], true, List, OnOk};
ghost use Rattle.fs_model.specs.declared.node.Stat.{Stat};
ghost use Rattle.fs_model.specs.Names.{Path};
ghost use Rattle.fs_model.specs.Trail.{error_of, unless_lack};
ghost use Rattle.fs_model.specs.WellFormed.{WellFormed};
ghost use Rattle.fs_model.specs.Observed.{OnlyReads};
ghost use Rattle.fs_tools.specs.Walked.{TakesAll};
ghost use Rattle.tree_checks.specs.Looks.{IsNoRefusal};
ghost use Rattle.shared_inodes.specs.Regions.{AreInTurn, IsWalkIn};

use fs_model::{Fs, FsError, Path};
use fs_tools::{Look, walk_with};
use std::alloc::Global;
use tree_checks::stat_at;

// Hands every name of a directory to `look`: none where nothing stands there.
fn look_under<F: Fs, L: Look>(
    alloc: Global,
    fs: &mut F,
    top: &Path,
    look: &mut L,
) -> Result<(), FsError>
    ensures reads { OnlyReads (record { told = F.told fs.old; firm = F.firm fs.old; depth = F.depth fs.old; trail = F.trail fs.old; counts = F.counts fs.old })
        (record { told = F.told fs.new; firm = F.firm fs.new; depth = F.depth fs.new; trail = F.trail fs.new; counts = F.counts fs.new }) (unless_lack (error_of result)) }
    ensures never_refused { F.told fs.old ≡ true → WellFormed (F.trail fs.old).present → IsNoRefusal result }
    ensures walked { F.told fs.old ≡ true → WellFormed (F.trail fs.old).present
        → OnOk result ((items : List (Path × Stat)) × TakesAll L.takes look.old items look.new × IsWalkIn (F.trail fs.old).present (top.now ∷ []) items) }
{
    match stat_at(fs, top) {
        Ok(Some(_)) => walk_with(alloc, fs, top, look),
        Ok(None) => Ok(()),
        Err(error) => Err(error),
    }
}

/// Hands every name of these directories to `look`, in ascending order. Symbolic links are not followed. A directory that
/// doesn't stand has no names.
pub(crate) fn look_in<F: Fs, L: Look>(
    alloc: Global,
    fs: &mut F,
    tops: &[Path],
    look: &mut L,
) -> Result<(), FsError>
    ensures reads { OnlyReads (record { told = F.told fs.old; firm = F.firm fs.old; depth = F.depth fs.old; trail = F.trail fs.old; counts = F.counts fs.old })
        (record { told = F.told fs.new; firm = F.firm fs.new; depth = F.depth fs.new; trail = F.trail fs.new; counts = F.counts fs.new }) (unless_lack (error_of result)) }
    ensures never_refused { F.told fs.old ≡ true → WellFormed (F.trail fs.old).present → IsNoRefusal result }
    ensures walked { F.told fs.old ≡ true → WellFormed (F.trail fs.old).present → AreInTurn tops.now
        → OnOk result ((items : List (Path × Stat)) × TakesAll L.takes look.old items look.new × IsWalkIn (F.trail fs.old).present tops.now items) }
{
    for top in tops {
        match look_under(alloc, fs, top, look) {
            Ok(()) => {}
            Err(error) => return Err(error),
        }
    }
    Ok(())
}

// Going over all names of a tree.
ghost use Rattle.std.specs.Prelude.{◌≡◌, ◌↔◌, ◌<◌, ◌-◌, ◌++◌, ◌∷◌, [], List, ℕ, true, Some, IsTrue, length, IfOk, OnOk};
ghost use Rattle.std.specs.FinMap as map;
ghost use Rattle.fs_model.specs.declared.node.Node.TheVariants.{Dir};
ghost use Rattle.fs_model.specs.declared.node.Stat.{Stat};
ghost use Rattle.fs_model.specs.Names.{Path};
ghost use Rattle.fs_model.specs.Calls.{Stats, refusal};
ghost use Rattle.fs_model.specs.Reading.{stat_of};
ghost use Rattle.fs_model.specs.WellFormed.{IsTree};
ghost use Rattle.fs_model.specs.Trail.{DecidedBy, OthersStay, error_of, unless_lack};
ghost use Rattle.fs_model.specs.Observed.{OnlyReads};
ghost use Rattle.fs_tools.specs.Walked.{IsWalk, TakesAll};

use crate::children::list_paths;
use fs_model::{Fs, FsError, Kind, Path, Stat};
use std::alloc::{AllocError, Global};

/// What is done with each name of a walk.
pub trait Look {
    /// What becomes of it when it takes a path with what `stat` says of it.
    ghost takes: { Self → Path → Stat → Self → Type 0 };

    /// Takes one name more.
    fn look(&mut self, at: &Path, stat: &Stat) -> Result<(), AllocError>
        ensures { OnOk result (takes self.old at.now stat.now self.new) };
}

// Looks at what stands at a path, and says whether it is a directory.
fn look_at<F: Fs, L: Look>(fs: &mut F, at: &Path, look: &mut L) -> Result<bool, FsError>
    ensures reads { OnlyReads (record { told = F.told fs.old; firm = F.firm fs.old; depth = F.depth fs.old; trail = F.trail fs.old; counts = F.counts fs.old })
        (record { told = F.told fs.new; firm = F.firm fs.new; depth = F.depth fs.new; trail = F.trail fs.new; counts = F.counts fs.new }) (unless_lack (error_of result)) }
    ensures decided { F.told fs.old ≡ true → DecidedBy (refusal (F.trail fs.old).present (Stats at.now)) result }
    ensures looked { F.told fs.old ≡ true → OnOk result ((stat : Stat) × (stat_of (F.trail fs.old).present at.now ≡ Some stat) × L.takes look.old at.now stat look.new) }
    ensures tells { F.told fs.old ≡ true → IfOk result (λ is_dir. IsTrue is_dir ↔ (map.get (F.trail fs.old).present.names at.now ≡ Some Dir)) }
    ensures others { OthersStay (F.counts fs.old) (F.counts fs.new) (error_of result) }
{
    let stat = fs.stat(at)?;
    look.look(at, &stat)?;
    Ok(stat.kind == Kind::Dir)
}

// Looks at a path and all below it.
fn look_below<F: Fs, L: Look>(
    alloc: Global,
    fs: &mut F,
    at: &Path,
    look: &mut L,
) -> Result<(), FsError>
    ensures reads { OnlyReads (record { told = F.told fs.old; firm = F.firm fs.old; depth = F.depth fs.old; trail = F.trail fs.old; counts = F.counts fs.old })
        (record { told = F.told fs.new; firm = F.firm fs.new; depth = F.depth fs.new; trail = F.trail fs.new; counts = F.counts fs.new }) (unless_lack (error_of result)) }
    ensures decided { F.told fs.old ≡ true → IsTree (F.trail fs.old).present.names → DecidedBy (refusal (F.trail fs.old).present (Stats at.now)) result }
    ensures walked { F.told fs.old ≡ true → IsTree (F.trail fs.old).present.names → OnOk result ((items : List (Path × Stat)) × TakesAll L.takes look.old items look.new × IsWalk (F.trail fs.old).present at.now items) }
    ensures others { OthersStay (F.counts fs.old) (F.counts fs.new) (error_of result) }
{
    let is_dir = look_at(fs, at, look)?;
    if !is_dir {
        return Ok(());
    }
    let paths = list_paths(alloc, fs, at)?;
    for path in &paths {
        look_below(alloc, fs, path, look)?;
    }
    Ok(())
}

/// Hands the path and every name below it to `look`, in ascending order. Symbolic links are not followed. It keeps no
/// more names than those of the directories on the way to one of them. No state is changed. Refuses as `stat` does.
pub fn walk_with<F: Fs, L: Look>(
    alloc: Global,
    fs: &mut F,
    top: &Path,
    look: &mut L,
) -> Result<(), FsError>
    ensures reads { OnlyReads (record { told = F.told fs.old; firm = F.firm fs.old; depth = F.depth fs.old; trail = F.trail fs.old; counts = F.counts fs.old })
        (record { told = F.told fs.new; firm = F.firm fs.new; depth = F.depth fs.new; trail = F.trail fs.new; counts = F.counts fs.new }) (unless_lack (error_of result)) }
    ensures decided { F.told fs.old ≡ true → DecidedBy (refusal (F.trail fs.old).present (Stats top.now)) result }
    ensures walked { F.told fs.old ≡ true → OnOk result ((items : List (Path × Stat)) × TakesAll L.takes look.old items look.new × IsWalk (F.trail fs.old).present top.now items) }
    ensures others { OthersStay (F.counts fs.old) (F.counts fs.new) (error_of result) }
{
    // A file system that tells its states is in a well-formed one; this asks for that.
    let _ = fs.moment();
    look_below(alloc, fs, top, look)
}

// The names of a walk, kept.
#[derive(Drop)]
struct Listed {
    items: Vec<(Path, Stat)>,
}

impl Look for Listed {
    ghost takes = { λ before at stat after. after.items.items ≡ before.items.items ++ (at, stat) ∷ [] };

    fn look(&mut self, at: &Path, stat: &Stat) -> Result<(), AllocError> {
        self.items.push((at.clone()?, *stat))?;
        Ok(())
    }
}

/// The path and every name below it, in ascending order, each with what `stat` says of it. Symbolic links are not
/// followed. The number of calls is linear in the number of names. No state is changed. Refuses as `stat` does.
pub fn walk<F: Fs>(alloc: Global, fs: &mut F, top: &Path) -> Result<Vec<(Path, Stat)>, FsError>
    ensures reads { OnlyReads (record { told = F.told fs.old; firm = F.firm fs.old; depth = F.depth fs.old; trail = F.trail fs.old; counts = F.counts fs.old })
        (record { told = F.told fs.new; firm = F.firm fs.new; depth = F.depth fs.new; trail = F.trail fs.new; counts = F.counts fs.new }) (unless_lack (error_of result)) }
    ensures decided { F.told fs.old ≡ true → DecidedBy (refusal (F.trail fs.old).present (Stats top.now)) result }
    ensures walked { F.told fs.old ≡ true → IfOk result (λ items. IsWalk (F.trail fs.old).present top.now items.items) }
    ensures others { OthersStay (F.counts fs.old) (F.counts fs.new) (error_of result) }
{
    let mut listed = Listed {
        items: Vec::new(alloc),
    };
    walk_with(alloc, fs, top, &mut listed)?;
    Ok(listed.items)
}

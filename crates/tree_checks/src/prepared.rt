// What stands beside a cluster's files that an upgrade can't take: prepared transactions, and the control file of a
// cluster that was disabled.
ghost use Rattle.std.specs.Prelude.{◌≡◌, true, IfOk, is_some};
ghost use Rattle.std.specs.FinMap.{get};
ghost use Rattle.crash_safety.specs.Places.{disabled_at};
ghost use Rattle.fs_model.specs.Trail.{error_of, unless_lack};
ghost use Rattle.fs_model.specs.WellFormed.{WellFormed};
ghost use Rattle.fs_model.specs.Observed.{OnlyReads};
ghost use Rattle.tree_checks.specs.Looks.{IsNoRefusal};
ghost use Rattle.tree_checks.specs.Prepared.{twophase_at, is_filled};

use crate::looks::{kind_at, names_at};
use fs_model::{Fs, FsError, Path};
use std::alloc::Global;

// Whether anything stands at a path.
fn stands<F: Fs>(fs: &mut F, at: &Path) -> Result<bool, FsError>
    ensures reads { OnlyReads (record { told = F.told fs.old; firm = F.firm fs.old; depth = F.depth fs.old; trail = F.trail fs.old; counts = F.counts fs.old })
        (record { told = F.told fs.new; firm = F.firm fs.new; depth = F.depth fs.new; trail = F.trail fs.new; counts = F.counts fs.new }) (unless_lack (error_of result)) }
    ensures never_refused { IsNoRefusal result }
    ensures shows { F.told fs.old ≡ true → WellFormed (F.trail fs.old).present → IfOk result (λ found. found ≡ is_some (get (F.trail fs.old).present.names at.now)) }
{
    match kind_at(fs, at) {
        Ok(kind) => Ok(kind.is_some()),
        Err(error) => Err(error),
    }
}

// Whether something stands at a path that is no empty directory.
fn is_filled<F: Fs>(alloc: Global, fs: &mut F, at: &Path) -> Result<bool, FsError>
    ensures reads { OnlyReads (record { told = F.told fs.old; firm = F.firm fs.old; depth = F.depth fs.old; trail = F.trail fs.old; counts = F.counts fs.old })
        (record { told = F.told fs.new; firm = F.firm fs.new; depth = F.depth fs.new; trail = F.trail fs.new; counts = F.counts fs.new }) (unless_lack (error_of result)) }
    ensures never_refused { IsNoRefusal result }
    ensures shows { F.told fs.old ≡ true → WellFormed (F.trail fs.old).present → IfOk result (λ found. found ≡ is_filled (F.trail fs.old).present.names at.now) }
{
    match names_at(alloc, fs, at) {
        Ok(Some(names)) => Ok(!names.is_empty()),
        Ok(None) => stands(fs, at),
        Err(error) => Err(error),
    }
}

/// Whether a cluster has prepared transactions: `pg_twophase` stands and is no empty directory (`twophase.c`). No state is
/// changed, and no refusal is answered.
pub fn has_prepared<F: Fs>(alloc: Global, fs: &mut F, root: &Path) -> Result<bool, FsError>
    ensures reads { OnlyReads (record { told = F.told fs.old; firm = F.firm fs.old; depth = F.depth fs.old; trail = F.trail fs.old; counts = F.counts fs.old })
        (record { told = F.told fs.new; firm = F.firm fs.new; depth = F.depth fs.new; trail = F.trail fs.new; counts = F.counts fs.new }) (unless_lack (error_of result)) }
    ensures never_refused { IsNoRefusal result }
    ensures finds { F.told fs.old ≡ true → IfOk result (λ found. found ≡ is_filled (F.trail fs.old).present.names (twophase_at root.now)) }
{
    let _ = fs.moment();
    let Ok(at) = root.join(&["pg_twophase"]) else {
        return Err(FsError::OutOfMemory);
    };
    is_filled(alloc, fs, &at)
}

/// Whether the control file of a disabled cluster, `global/pg_control.old`, stands. No state is changed, and no refusal is
/// answered.
pub fn has_disabled_control<F: Fs>(fs: &mut F, root: &Path) -> Result<bool, FsError>
    ensures reads { OnlyReads (record { told = F.told fs.old; firm = F.firm fs.old; depth = F.depth fs.old; trail = F.trail fs.old; counts = F.counts fs.old })
        (record { told = F.told fs.new; firm = F.firm fs.new; depth = F.depth fs.new; trail = F.trail fs.new; counts = F.counts fs.new }) (unless_lack (error_of result)) }
    ensures never_refused { IsNoRefusal result }
    ensures finds { F.told fs.old ≡ true → IfOk result (λ found. found ≡ is_some (get (F.trail fs.old).present.names (disabled_at root.now))) }
{
    let _ = fs.moment();
    let Ok(at) = root.join(&["global", "pg_control.old"]) else {
        return Err(FsError::OutOfMemory);
    };
    stands(fs, &at)
}

// Copying all files of one directory into another.
ghost use Rattle.std.specs.Prelude.{◌≡◌, ◌≢◌, ◌<◌, [], ◌∷◌, true, None, Some, length, OnOk};
ghost use Rattle.std.specs.FinMap.{get};
ghost use Rattle.fs_model.specs.declared.node.Node.TheVariants.{Dir};
ghost use Rattle.fs_model.specs.Trail.{Goes, Since, DecidedBy, HasCause, OthersStay, error_of, unless_lack};
ghost use Rattle.fs_model.specs.Names.{Path};
ghost use Rattle.crash_safety.specs.Frame.{IsInside};
ghost use Rattle.crash_safety.specs.Upgrade.{Upgrade, IsReady};
ghost use Rattle.crash_safety.specs.Sound.{Stage, Moving, Sound};
ghost use Rattle.status_transfer.specs.Carried.{CarriesInto, ChangesOnlyIn, CarriesDir, HoldsFiles, HasNoNames};

use crate::names::copy_names;
use fs_model::{Fs, FsError, Path};
use fs_tools::clear_dir;
use std::alloc::Global;

// Copies each file of a directory into one that has no names.
fn copy_files<F: Fs>(
    alloc: Global,
    fs: &mut F,
    from: &Path,
    to: &Path,
    buffer: &mut [u8],
) -> Result<(), FsError>
    requires { 0 < length buffer.old }
    ensures told { F.told fs.new ≡ F.told fs.old }
    ensures firm { F.firm fs.new ≡ F.firm fs.old }
    ensures calls { F.told fs.old ≡ true → Goes (CarriesInto (to.now ∷ []) (F.trail fs.old).present) (F.trail fs.old) (F.trail fs.new) }
    ensures unrefused { F.told fs.old ≡ true → HoldsFiles (F.trail fs.old).present.names from.now → get (F.trail fs.old).present.names to.now ≡ Some Dir → HasNoNames (F.trail fs.old).present.names to.now → DecidedBy None result }
    ensures carried { F.told fs.old ≡ true → from.now ≢ to.now → HasNoNames (F.trail fs.old).present.names to.now → OnOk result (CarriesDir (F.trail fs.old).present from.now to.now (F.trail fs.new).present) }
    ensures cause { HasCause (F.firm fs.old) (F.counts fs.old) (F.counts fs.new) (unless_lack (error_of result)) }
    ensures others { OthersStay (F.counts fs.old) (F.counts fs.new) (error_of result) }
{
    // It says that the state is well-formed.
    let _ = fs.moment();
    let names = fs.list(alloc, from)?;
    copy_names(fs, from, to, &names, buffer)
}

/// Makes one directory have exactly the files of another: removes its own, and copies the other's through the buffer. After
/// an error some of its own may be gone, and some of the other's stand, the last with any bytes.
/// (`copy_subdir_files` of `src/bin/pg_upgrade/pg_upgrade.c`.)
pub fn carry_dir<F: Fs>(
    alloc: Global,
    fs: &mut F,
    from: &Path,
    to: &Path,
    buffer: &mut [u8],
) -> Result<(), FsError>
    requires { 0 < length buffer.old }
    ensures told { F.told fs.new ≡ F.told fs.old }
    ensures firm { F.firm fs.new ≡ F.firm fs.old }
    ensures calls { F.told fs.old ≡ true → Goes (CarriesInto (to.now ∷ []) (F.trail fs.old).present) (F.trail fs.old) (F.trail fs.new) }
    ensures frame { F.told fs.old ≡ true → Since (ChangesOnlyIn (to.now ∷ []) (F.trail fs.old).present) (F.trail fs.old) (F.trail fs.new) }
    ensures sound { F.told fs.old ≡ true → (u : Upgrade) → IsReady u → (stage : Stage) → (stage ≡ Moving → ⊥) → ((path : Path) → IsInside (to.now ∷ []) path → IsInside u.new_tops path) → Sound u stage (F.trail fs.old).present → Since (Sound u stage) (F.trail fs.old) (F.trail fs.new) }
    ensures unrefused { F.told fs.old ≡ true → from.now ≢ to.now → HoldsFiles (F.trail fs.old).present.names from.now → HoldsFiles (F.trail fs.old).present.names to.now → DecidedBy None result }
    ensures carried { F.told fs.old ≡ true → from.now ≢ to.now → OnOk result (CarriesDir (F.trail fs.old).present from.now to.now (F.trail fs.new).present) }
    ensures cause { HasCause (F.firm fs.old) (F.counts fs.old) (F.counts fs.new) (unless_lack (error_of result)) }
    ensures others { OthersStay (F.counts fs.old) (F.counts fs.new) (error_of result) }
{
    // It says that the state is well-formed.
    let _ = fs.moment();
    clear_dir(alloc, fs, to)?;
    copy_files(alloc, fs, from, to, buffer)
}

// Clearing a directory.
ghost use Rattle.std.specs.Prelude.{◌≡◌, true, [], None, OnOk};
ghost use Rattle.std.specs.List.{AllByRecursion};
ghost use Rattle.fs_model.specs.Names.{Path};
ghost use Rattle.fs_model.specs.Calls.{Lists, refusal, children};
ghost use Rattle.fs_model.specs.Trail.{Goes, DecidedBy, HasCause, OthersStay, error_of, unless_lack};
ghost use Rattle.fs_tools.specs.Children.{paths_in, IsIn};
ghost use Rattle.fs_tools.specs.Cleared.{unlinked, AreFree, HasNoDirs, Clears};

use crate::children::list_paths;
use fs_model::{Fs, FsError, Path};
use std::alloc::Global;

// Unlinks each of these names.
fn unlink_all<F: Fs>(fs: &mut F, paths: &[Path]) -> Result<(), FsError>
    ensures told { F.told fs.new ≡ F.told fs.old }
    ensures firm { F.firm fs.new ≡ F.firm fs.old }
    ensures calls { F.told fs.old ≡ true → (at : Path) → AllByRecursion (IsIn at) paths.now → Goes (Clears at) (F.trail fs.old) (F.trail fs.new) }
    ensures free { F.told fs.old ≡ true → AreFree (F.trail fs.old).present paths.now → DecidedBy None result }
    ensures unlinked { F.told fs.old ≡ true → OnOk result ((F.trail fs.new).present ≡ unlinked (F.trail fs.old).present paths.now) }
    ensures cause { HasCause (F.firm fs.old) (F.counts fs.old) (F.counts fs.new) (error_of result) }
    ensures others { OthersStay (F.counts fs.old) (F.counts fs.new) (error_of result) }
{
    for path in paths {
        fs.unlink(path)?;
    }
    Ok(())
}

/// Unlinks each name of a directory, in ascending order. After an error some may be gone.
/// Refuses as `list` does, and where one of the names is a directory with `WrongKind`.
pub fn clear_dir<F: Fs>(alloc: Global, fs: &mut F, at: &Path) -> Result<(), FsError>
    ensures told { F.told fs.new ≡ F.told fs.old }
    ensures firm { F.firm fs.new ≡ F.firm fs.old }
    ensures calls { F.told fs.old ≡ true → Goes (Clears at.now) (F.trail fs.old) (F.trail fs.new) }
    ensures decided { F.told fs.old ≡ true → HasNoDirs (F.trail fs.old).present.names at.now → DecidedBy (refusal (F.trail fs.old).present (Lists at.now)) result }
    ensures cleared { F.told fs.old ≡ true → OnOk result ((F.trail fs.new).present ≡ unlinked (F.trail fs.old).present (paths_in (F.trail fs.old).present.names at.now)) }
    ensures empty { F.told fs.old ≡ true → OnOk result (children (F.trail fs.new).present.names at.now ≡ []) }
    ensures cause { HasCause (F.firm fs.old) (F.counts fs.old) (F.counts fs.new) (unless_lack (error_of result)) }
    ensures others { OthersStay (F.counts fs.old) (F.counts fs.new) (error_of result) }
{
    let paths = list_paths(alloc, fs, at)?;
    unlink_all(fs, &paths)
}

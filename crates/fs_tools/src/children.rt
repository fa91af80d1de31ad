// The names in a directory, as paths.
ghost use Rattle.std.specs.Prelude.{◌≡◌, ◌<◌, ℕ, List, true, map, length, IfOk, IfErr, OnOk};
ghost use Rattle.fs_model.specs.declared.error.FsError.TheVariants.{OutOfMemory};
ghost use Rattle.fs_model.specs.Calls.{Lists, refusal};
ghost use Rattle.fs_model.specs.Trail.{DecidedBy, OthersStay, error_of, unless_lack};
ghost use Rattle.fs_model.specs.Observed.{OnlyReads};
ghost use Rattle.fs_tools.specs.Children.{child_of, paths_in};

use fs_model::{Fs, FsError, Name, Path};
use std::alloc::Global;

// The path of each name in a directory.
fn child_paths(alloc: Global, at: &Path, names: &[Name]) -> Result<Vec<Path>, FsError>
    ensures paths { IfOk result (λ paths. paths.items ≡ map (child_of at.now) names.now) }
    ensures lack { IfErr result (λ error. error ≡ OutOfMemory) }
{
    let mut paths = Vec::new(alloc);
    for name in names {
        match at.child(name) {
            Ok(path) => paths.push(path)?,
            Err(_) => return Err(FsError::OutOfMemory),
        }
    }
    Ok(paths)
}

// The paths of the names in a directory, in ascending order.
pub(crate) fn list_paths<F: Fs>(alloc: Global, fs: &mut F, at: &Path) -> Result<Vec<Path>, FsError>
    ensures reads { OnlyReads (record { told = F.told fs.old; firm = F.firm fs.old; depth = F.depth fs.old; trail = F.trail fs.old; counts = F.counts fs.old })
        (record { told = F.told fs.new; firm = F.firm fs.new; depth = F.depth fs.new; trail = F.trail fs.new; counts = F.counts fs.new }) (unless_lack (error_of result)) }
    ensures decided { F.told fs.old ≡ true → DecidedBy (refusal (F.trail fs.old).present (Lists at.now)) result }
    ensures shallow { OnOk result (length at.now < F.depth fs.old) }
    ensures below { IfOk result (λ paths. (names : List (List ℕ)) × (paths.items ≡ map (child_of at.now) names)) }
    ensures paths { F.told fs.old ≡ true → IfOk result (λ paths. paths.items ≡ paths_in (F.trail fs.old).present.names at.now) }
    ensures others { OthersStay (F.counts fs.old) (F.counts fs.new) (error_of result) }
{
    let names = fs.list(alloc, at)?;
    child_paths(alloc, at, &names)
}

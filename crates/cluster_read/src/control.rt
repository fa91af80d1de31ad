// The control file of a cluster.
ghost use Rattle.std.specs.Prelude.{◌≡◌, true, Some, IfOk, option_map};
ghost use Rattle.fs_model.specs.Calls.{ReadsAt, refusal};
ghost use Rattle.fs_model.specs.Reading.{file_bytes};
ghost use Rattle.fs_model.specs.Observed.{Observed, OnlyReads};
ghost use Rattle.cluster_meaning.specs.Cluster.{control_path, control_at};
ghost use Rattle.cluster_read.specs.declared.error.ReadError.TheVariants.{Fs};
ghost use Rattle.cluster_read.specs.Causes.{DecidedAs, WrapsNoLack, FindsObjects, control_refusal, fault_of};

use crate::error::{ReadError, read_as};
use control_file::{Control, Release, read_control};
use fs_model::{Fs, Path, PathError};
use fs_tools::read_all;
use std::alloc::Global;

// The path of the control file.
fn control_path(root: &Path) -> Result<Path, PathError>
    ensures path { IfOk result (λ path. path ≡ control_path root.now) }
{
    root.join(&["global", "pg_control"])
}

// The bytes of the control file at a root.
fn control_bytes<F: Fs>(alloc: Global, fs: &mut F, root: &Path) -> Result<Vec<u8>, ReadError>
    ensures reads { OnlyReads (record { told = F.told fs.old; firm = F.firm fs.old; depth = F.depth fs.old; trail = F.trail fs.old; counts = F.counts fs.old })
        (record { told = F.told fs.new; firm = F.firm fs.new; depth = F.depth fs.new; trail = F.trail fs.new; counts = F.counts fs.new }) (fault_of result) }
    ensures whole { WrapsNoLack result }
    ensures stands { FindsObjects result }
    ensures decided { F.told fs.old ≡ true → DecidedAs (option_map Fs (refusal (F.trail fs.old).present (ReadsAt (control_path root.now)))) result }
    ensures bytes { F.told fs.old ≡ true → IfOk result (λ bytes. file_bytes (F.trail fs.old).present (control_path root.now) ≡ Some bytes.items) }
{
    let Ok(path) = control_path(root) else {
        return Err(ReadError::OutOfMemory);
    };
    let answer = read_all(alloc, fs, &path);
    read_as(answer)
}

// What the control file at a root says, if it is that of the release.
pub(crate) fn control_at<F: Fs>(
    alloc: Global,
    fs: &mut F,
    root: &Path,
    release: Release,
) -> Result<Control, ReadError>
    ensures reads { OnlyReads (record { told = F.told fs.old; firm = F.firm fs.old; depth = F.depth fs.old; trail = F.trail fs.old; counts = F.counts fs.old })
        (record { told = F.told fs.new; firm = F.firm fs.new; depth = F.depth fs.new; trail = F.trail fs.new; counts = F.counts fs.new }) (fault_of result) }
    ensures whole { WrapsNoLack result }
    ensures stands { FindsObjects result }
    ensures decided { F.told fs.old ≡ true → DecidedAs (control_refusal (F.trail fs.old).present root.now release) result }
    ensures control { F.told fs.old ≡ true → IfOk result (λ control. control ≡ control_at (F.trail fs.old).present root.now) }
{
    let bytes = match control_bytes(alloc, fs, root) {
        Ok(bytes) => bytes,
        Err(error) => return Err(error),
    };
    match read_control(&bytes, release) {
        Ok(control) => Ok(control),
        Err(error) => Err(ReadError::Control(error)),
    }
}

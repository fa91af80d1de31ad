// Copying files of one directory into another, name by name.
ghost use Rattle.std.specs.Prelude.{◌≡◌, ◌<◌, [], ◌∷◌, true, None, length, IfOk, IfErr, OnOk};
ghost use Rattle.std.specs.List.{AllByRecursion};
ghost use Rattle.fs_model.specs.declared.error.FsError.TheVariants.{OutOfMemory};
ghost use Rattle.fs_model.specs.Trail.{Goes, DecidedBy, HasCause, OthersStay, error_of, unless_lack};
ghost use Rattle.fs_tools.specs.Children.{child_of};
ghost use Rattle.fs_tools.specs.Copied.{CopiesFile};
ghost use Rattle.status_transfer.specs.Carried.{CarriesInto, CopiesNames, IsReady, AreApart};

use fs_model::{Fs, FsError, Name, Path};
use fs_tools::copy_file;

// The paths of a name in two directories.
fn both_paths(from: &Path, to: &Path, name: &Name) -> Result<(Path, Path), FsError>
    ensures source { IfOk result (λ paths. paths.0 ≡ child_of from.now name.now) }
    ensures target { IfOk result (λ paths. paths.1 ≡ child_of to.now name.now) }
    ensures lack { IfErr result (λ error. error ≡ OutOfMemory) }
{
    match (from.child(name), to.child(name)) {
        (Ok(source), Ok(target)) => Ok((source, target)),
        _ => Err(FsError::OutOfMemory),
    }
}

// Copies the file of this name, and gives the number of its bytes.
fn copy_name<F: Fs>(
    fs: &mut F,
    from: &Path,
    to: &Path,
    name: &Name,
    buffer: &mut [u8],
) -> Result<u64, FsError>
    requires { 0 < length buffer.old }
    ensures told { F.told fs.new ≡ F.told fs.old }
    ensures firm { F.firm fs.new ≡ F.firm fs.old }
    ensures calls { F.told fs.old ≡ true → Goes (CarriesInto (to.now ∷ []) (F.trail fs.old).present) (F.trail fs.old) (F.trail fs.new) }
    ensures unrefused { F.told fs.old ≡ true → IsReady (F.trail fs.old).present from.now to.now name.now → DecidedBy None result }
    ensures copied { F.told fs.old ≡ true → IfOk result (λ number. CopiesFile (F.trail fs.old).present (child_of from.now name.now) (child_of to.now name.now) number (F.trail fs.new).present) }
    ensures cause { HasCause (F.firm fs.old) (F.counts fs.old) (F.counts fs.new) (unless_lack (error_of result)) }
    ensures others { OthersStay (F.counts fs.old) (F.counts fs.new) (error_of result) }
{
    let (source, target) = both_paths(from, to, name)?;
    copy_file(fs, &source, &target, buffer)
}

// Copies the files of these names, in turn. After an error some stand in the other directory, and perhaps the next, with
// any bytes.
pub(crate) fn copy_names<F: Fs>(
    fs: &mut F,
    from: &Path,
    to: &Path,
    names: &[Name],
    buffer: &mut [u8],
) -> Result<(), FsError>
    requires { 0 < length buffer.old }
    ensures told { F.told fs.new ≡ F.told fs.old }
    ensures firm { F.firm fs.new ≡ F.firm fs.old }
    ensures calls { F.told fs.old ≡ true → Goes (CarriesInto (to.now ∷ []) (F.trail fs.old).present) (F.trail fs.old) (F.trail fs.new) }
    ensures unrefused { F.told fs.old ≡ true → AllByRecursion (IsReady (F.trail fs.old).present from.now to.now) names.now → AreApart names.now → DecidedBy None result }
    ensures copied { F.told fs.old ≡ true → OnOk result (CopiesNames (F.trail fs.old).present from.now to.now names.now (F.trail fs.new).present) }
    ensures cause { HasCause (F.firm fs.old) (F.counts fs.old) (F.counts fs.new) (unless_lack (error_of result)) }
    ensures others { OthersStay (F.counts fs.old) (F.counts fs.new) (error_of result) }
{
    for name in names {
        copy_name(fs, from, to, name, buffer)?;
    }
    Ok(())
}

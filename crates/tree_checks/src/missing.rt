// The directories that both clusters need.
ghost use Rattle.std.specs.Prelude.{◌≡◌, ◌++◌, true, Some, is_some, IfOk, IfErr, OnOk};
ghost use Rattle.std.specs.List.{find};
ghost use Rattle.fs_model.specs.declared.error.FsError.TheVariants.{OutOfMemory};
ghost use Rattle.fs_model.specs.Trail.{error_of, unless_lack};
ghost use Rattle.fs_model.specs.WellFormed.{WellFormed};
ghost use Rattle.fs_model.specs.Observed.{OnlyReads};
ghost use Rattle.tree_checks.specs.Findings.{IsFirstAmong};
ghost use Rattle.tree_checks.specs.Looks.{IsNoRefusal};
ghost use Rattle.tree_checks.specs.MissingDirs.{status_dirs, target_dirs, IsNoDir, is_no_file_in, IsBadStatus, IsMissingDir};

use crate::looks::{is_dir, is_file, kind_at, names_at};
use crate::new_dirs::{NEW_DIRS, new_dir};
use fs_model::{Fs, FsError, Name, Path, PathError};
use std::alloc::Global;

// Adds the directories of a cluster's status files.
fn add_status_dirs(dirs: &mut Vec<Path>, root: &Path) -> Result<(), PathError>
    ensures { OnOk result (dirs.new.items ≡ dirs.old.items ++ status_dirs root.now) }
{
    dirs.push(root.join(&["pg_xact"])?)?;
    dirs.push(root.join(&["pg_multixact", "offsets"])?)?;
    dirs.push(root.join(&["pg_multixact", "members"])?)?;
    Ok(())
}

// The directories of both clusters' status files.
fn status_dirs(alloc: Global, old: &Path, new: &Path) -> Result<Vec<Path>, PathError>
    ensures { IfOk result (λ dirs. dirs.items ≡ status_dirs old.now ++ status_dirs new.now) }
{
    let mut dirs = Vec::new(alloc);
    add_status_dirs(&mut dirs, old)?;
    add_status_dirs(&mut dirs, new)?;
    Ok(dirs)
}

fn copy_of(path: &Path) -> Result<Option<Path>, FsError>
    ensures same { IfOk result (λ copy. copy ≡ Some path.now) }
    ensures lack { IfErr result (λ error. error ≡ OutOfMemory) }
{
    match path.copy() {
        Ok(copy) => Ok(Some(copy)),
        Err(_) => Err(FsError::OutOfMemory),
    }
}

// The directories of a new cluster into which an upgrade writes.
fn target_dirs(alloc: Global, root: &Path) -> Result<Vec<Path>, PathError>
    ensures { IfOk result (λ dirs. dirs.items ≡ target_dirs root.now) }
{
    let mut dirs = Vec::new(alloc);
    for dir in &NEW_DIRS {
        dirs.push(new_dir(root, *dir)?)?;
    }
    Ok(dirs)
}

// The path, where it is that of no directory.
fn no_dir<F: Fs>(fs: &mut F, dir: &Path) -> Result<Option<Path>, FsError>
    ensures reads { OnlyReads (record { told = F.told fs.old; firm = F.firm fs.old; depth = F.depth fs.old; trail = F.trail fs.old; counts = F.counts fs.old })
        (record { told = F.told fs.new; firm = F.firm fs.new; depth = F.depth fs.new; trail = F.trail fs.new; counts = F.counts fs.new }) (unless_lack (error_of result)) }
    ensures never_refused { IsNoRefusal result }
    ensures finds { F.told fs.old ≡ true → WellFormed (F.trail fs.old).present → IfOk result (IsNoDir (F.trail fs.old).present.names dir.now) }
{
    match kind_at(fs, dir) {
        Ok(kind) if is_dir(kind) => Ok(None),
        Ok(_) => copy_of(dir),
        Err(error) => Err(error),
    }
}

// Whether one of these names in a directory is not that of a file.
fn has_no_file<F: Fs>(fs: &mut F, dir: &Path, names: &[Name]) -> Result<bool, FsError>
    ensures reads { OnlyReads (record { told = F.told fs.old; firm = F.firm fs.old; depth = F.depth fs.old; trail = F.trail fs.old; counts = F.counts fs.old })
        (record { told = F.told fs.new; firm = F.firm fs.new; depth = F.depth fs.new; trail = F.trail fs.new; counts = F.counts fs.new }) (unless_lack (error_of result)) }
    ensures never_refused { IsNoRefusal result }
    ensures finds { F.told fs.old ≡ true → WellFormed (F.trail fs.old).present
        → IfOk result (λ found. found ≡ is_some (find (is_no_file_in (F.trail fs.old).present.names dir.now) names.now)) }
{
    for name in names {
        let Ok(path) = dir.child(name) else {
            return Err(FsError::OutOfMemory);
        };
        match kind_at(fs, &path) {
            Ok(kind) => {
                if !is_file(kind) {
                    return Ok(true);
                }
            }
            Err(error) => return Err(error),
        }
    }
    Ok(false)
}

// What is wrong with a directory of status files.
fn bad_status<F: Fs>(alloc: Global, fs: &mut F, dir: &Path) -> Result<Option<Path>, FsError>
    ensures reads { OnlyReads (record { told = F.told fs.old; firm = F.firm fs.old; depth = F.depth fs.old; trail = F.trail fs.old; counts = F.counts fs.old })
        (record { told = F.told fs.new; firm = F.firm fs.new; depth = F.depth fs.new; trail = F.trail fs.new; counts = F.counts fs.new }) (unless_lack (error_of result)) }
    ensures never_refused { IsNoRefusal result }
    ensures finds { F.told fs.old ≡ true → WellFormed (F.trail fs.old).present → IfOk result (IsBadStatus (F.trail fs.old).present.names dir.now) }
{
    match names_at(alloc, fs, dir) {
        Ok(Some(names)) => match has_no_file(fs, dir, &names) {
            Ok(true) => copy_of(dir),
            Ok(false) => Ok(None),
            Err(error) => Err(error),
        },
        Ok(None) => copy_of(dir),
        Err(error) => Err(error),
    }
}

// The first finding of these directories of status files.
fn first_bad_status<F: Fs>(
    alloc: Global,
    fs: &mut F,
    dirs: &[Path],
) -> Result<Option<Path>, FsError>
    ensures reads { OnlyReads (record { told = F.told fs.old; firm = F.firm fs.old; depth = F.depth fs.old; trail = F.trail fs.old; counts = F.counts fs.old })
        (record { told = F.told fs.new; firm = F.firm fs.new; depth = F.depth fs.new; trail = F.trail fs.new; counts = F.counts fs.new }) (unless_lack (error_of result)) }
    ensures never_refused { IsNoRefusal result }
    ensures finds { F.told fs.old ≡ true → WellFormed (F.trail fs.old).present → IfOk result (IsFirstAmong (IsBadStatus (F.trail fs.old).present.names) dirs.now) }
{
    for dir in dirs {
        match bad_status(alloc, fs, dir) {
            Ok(None) => {}
            Ok(Some(path)) => return Ok(Some(path)),
            Err(error) => return Err(error),
        }
    }
    Ok(None)
}

// The first of these paths that is none of a directory.
fn first_no_dir<F: Fs>(fs: &mut F, dirs: &[Path]) -> Result<Option<Path>, FsError>
    ensures reads { OnlyReads (record { told = F.told fs.old; firm = F.firm fs.old; depth = F.depth fs.old; trail = F.trail fs.old; counts = F.counts fs.old })
        (record { told = F.told fs.new; firm = F.firm fs.new; depth = F.depth fs.new; trail = F.trail fs.new; counts = F.counts fs.new }) (unless_lack (error_of result)) }
    ensures never_refused { IsNoRefusal result }
    ensures finds { F.told fs.old ≡ true → WellFormed (F.trail fs.old).present → IfOk result (IsFirstAmong (IsNoDir (F.trail fs.old).present.names) dirs.now) }
{
    for dir in dirs {
        match no_dir(fs, dir) {
            Ok(None) => {}
            Ok(Some(path)) => return Ok(Some(path)),
            Err(error) => return Err(error),
        }
    }
    Ok(None)
}

/// The first of the directories that both clusters need that is missing: of the old and then of the new cluster those of
/// status files, which may hold files alone, and then those of the new cluster into which an upgrade writes. No state is
/// changed, and no refusal is answered.
pub fn missing_dir<F: Fs>(
    alloc: Global,
    fs: &mut F,
    old: &Path,
    new: &Path,
) -> Result<Option<Path>, FsError>
    ensures reads { OnlyReads (record { told = F.told fs.old; firm = F.firm fs.old; depth = F.depth fs.old; trail = F.trail fs.old; counts = F.counts fs.old })
        (record { told = F.told fs.new; firm = F.firm fs.new; depth = F.depth fs.new; trail = F.trail fs.new; counts = F.counts fs.new }) (unless_lack (error_of result)) }
    ensures never_refused { IsNoRefusal result }
    ensures finds { F.told fs.old ≡ true → IfOk result (IsMissingDir (F.trail fs.old).present.names old.now new.now) }
{
    let _ = fs.moment();
    let Ok(dirs) = status_dirs(alloc, old, new) else {
        return Err(FsError::OutOfMemory);
    };
    let Ok(targets) = target_dirs(alloc, new) else {
        return Err(FsError::OutOfMemory);
    };
    match first_bad_status(alloc, fs, &dirs) {
        Ok(None) => first_no_dir(fs, &targets),
        Ok(Some(path)) => Ok(Some(path)),
        Err(error) => Err(error),
    }
}

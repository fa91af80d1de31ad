// Putting a tree on the disk.
ghost use Rattle.std.specs.Prelude.{◌≡◌, ◌≤◌, ◌-◌, ◌^◌, ◌++◌, ◌∷◌, [], true, None, Some, length, IfOk, OnOk};
ghost use Rattle.std.specs.List.{AllByRecursion};
ghost use Rattle.std.specs.FinMap as map;
ghost use Rattle.fs_model.specs.declared.node.Node.TheVariants.{Dir};
ghost use Rattle.fs_model.specs.Names.{Path, IsUnder};
ghost use Rattle.fs_model.specs.Calls.{Stats, SyncsDir, refusal};
ghost use Rattle.fs_model.specs.WellFormed.{IsTree};
ghost use Rattle.fs_model.specs.Trail.{Goes, Since, DecidedBy, HasCause, OthersStay, error_of, unless_lack};
ghost use Rattle.fs_model.specs.Observed.{OnlyReads};
ghost use Rattle.crash_safety.specs.Synced.{IsSynced};
ghost use Rattle.fs_tools.specs.Children.{IsIn};
ghost use Rattle.fs_tools.specs.DiskKept.{KeepsDisk};
ghost use Rattle.fs_tools.specs.Walked.{dir_of, AreDirsUnder};
ghost use Rattle.fs_tools.specs.TreeSync.{SyncsFiles, SyncsDirs, SyncsTree, IsCleanAt, IsQuiet, OnlySyncs};

use crate::children::list_paths;
use crate::walks::{Look, walk_with};
use fs_model::{Fs, FsError, Kind, Path, Stat};
use std::alloc::{AllocError, Global};

// Puts what stands at a path on the disk, if it is a file.
fn sync_leaf<F: Fs>(fs: &mut F, at: &Path) -> Result<(), FsError>
    ensures told { F.told fs.new ≡ F.told fs.old }
    ensures firm { F.firm fs.new ≡ F.firm fs.old }
    ensures calls { F.told fs.old ≡ true → (top : Path) → IsUnder top at.now → Goes (SyncsFiles top) (F.trail fs.old) (F.trail fs.new) }
    ensures decided { F.told fs.old ≡ true → DecidedBy (refusal (F.trail fs.old).present (Stats at.now)) result }
    ensures clean { F.told fs.old ≡ true → OnOk result (IsCleanAt at.now (F.trail fs.new).present) }
    ensures cause { HasCause (F.firm fs.old) (F.counts fs.old) (F.counts fs.new) (error_of result) }
    ensures others { OthersStay (F.counts fs.old) (F.counts fs.new) (error_of result) }
{
    let stat = fs.stat(at)?;
    if stat.kind == Kind::File {
        return fs.sync_file(at);
    }
    Ok(())
}

// Puts the files of a directory on the disk.
fn sync_files_in<F: Fs>(alloc: Global, fs: &mut F, dir: &Path) -> Result<(), FsError>
    ensures told { F.told fs.new ≡ F.told fs.old }
    ensures firm { F.firm fs.new ≡ F.firm fs.old }
    ensures calls { F.told fs.old ≡ true → (top : Path) → IsUnder top dir.now → Goes (SyncsFiles top) (F.trail fs.old) (F.trail fs.new) }
    ensures decided { F.told fs.old ≡ true → IsTree (F.trail fs.old).present.names → map.get (F.trail fs.old).present.names dir.now ≡ Some Dir → DecidedBy None result }
    ensures clean { F.told fs.old ≡ true → OnOk result ((path : Path) → IsIn dir.now path → IsCleanAt path (F.trail fs.new).present) }
    ensures cause { HasCause (F.firm fs.old) (F.counts fs.old) (F.counts fs.new) (unless_lack (error_of result)) }
    ensures others { OthersStay (F.counts fs.old) (F.counts fs.new) (error_of result) }
{
    let paths = list_paths(alloc, fs, dir)?;
    for path in &paths {
        sync_leaf(fs, path)?;
    }
    Ok(())
}

// Puts the files of these directories on the disk.
fn sync_files<F: Fs>(alloc: Global, fs: &mut F, dirs: &[Path]) -> Result<(), FsError>
    ensures told { F.told fs.new ≡ F.told fs.old }
    ensures firm { F.firm fs.new ≡ F.firm fs.old }
    ensures calls { F.told fs.old ≡ true → (top : Path) → AllByRecursion (IsUnder top) dirs.now → Goes (SyncsFiles top) (F.trail fs.old) (F.trail fs.new) }
    ensures decided { F.told fs.old ≡ true → IsTree (F.trail fs.old).present.names → AllByRecursion (λ dir. map.get (F.trail fs.old).present.names dir ≡ Some Dir) dirs.now → DecidedBy None result }
    ensures clean { F.told fs.old ≡ true → OnOk result (AllByRecursion (λ dir. (path : Path) → IsIn dir path → IsCleanAt path (F.trail fs.new).present) dirs.now) }
    ensures cause { HasCause (F.firm fs.old) (F.counts fs.old) (F.counts fs.new) (unless_lack (error_of result)) }
    ensures others { OthersStay (F.counts fs.old) (F.counts fs.new) (error_of result) }
{
    for dir in dirs {
        sync_files_in(alloc, fs, dir)?;
    }
    Ok(())
}

// Puts the names of these directories on the disk.
fn sync_dirs<F: Fs>(fs: &mut F, dirs: &[Path]) -> Result<(), FsError>
    ensures told { F.told fs.new ≡ F.told fs.old }
    ensures firm { F.firm fs.new ≡ F.firm fs.old }
    ensures calls { F.told fs.old ≡ true → (top : Path) → AllByRecursion (IsUnder top) dirs.now → Goes (SyncsDirs top) (F.trail fs.old) (F.trail fs.new) }
    ensures decided { F.told fs.old ≡ true → AllByRecursion (λ dir. refusal (F.trail fs.old).present (SyncsDir dir) ≡ None) dirs.now → DecidedBy None result }
    ensures quiet { F.told fs.old ≡ true → OnOk result (AllByRecursion (λ dir. IsQuiet dir (F.trail fs.new).present.pending) dirs.now) }
    ensures cause { HasCause (F.firm fs.old) (F.counts fs.old) (F.counts fs.new) (error_of result) }
    ensures others { OthersStay (F.counts fs.old) (F.counts fs.new) (error_of result) }
{
    for dir in dirs {
        fs.sync_dir(dir)?;
    }
    Ok(())
}

// The directories of a walk, kept.
#[derive(Drop)]
struct Dirs {
    paths: Vec<Path>,
}

impl Look for Dirs {
    ghost takes = { λ before at stat after. after.paths.items ≡ before.paths.items ++ dir_of (at, stat) };

    fn look(&mut self, at: &Path, stat: &Stat) -> Result<(), AllocError> {
        if stat.kind == Kind::Dir {
            self.paths.push(at.clone()?)?;
        }
        Ok(())
    }
}

// The directories under a path, itself with them if it is one.
fn dirs_under<F: Fs>(alloc: Global, fs: &mut F, top: &Path) -> Result<Vec<Path>, FsError>
    ensures reads { OnlyReads (record { told = F.told fs.old; firm = F.firm fs.old; depth = F.depth fs.old; trail = F.trail fs.old; counts = F.counts fs.old })
        (record { told = F.told fs.new; firm = F.firm fs.new; depth = F.depth fs.new; trail = F.trail fs.new; counts = F.counts fs.new }) (unless_lack (error_of result)) }
    ensures decided { F.told fs.old ≡ true → DecidedBy (refusal (F.trail fs.old).present (Stats top.now)) result }
    ensures dirs { F.told fs.old ≡ true → IfOk result (λ dirs. AreDirsUnder (F.trail fs.old).present top.now dirs.items) }
    ensures others { OthersStay (F.counts fs.old) (F.counts fs.new) (error_of result) }
{
    let mut dirs = Dirs {
        paths: Vec::new(alloc),
    };
    walk_with(alloc, fs, top, &mut dirs)?;
    Ok(dirs.paths)
}

// Puts the files under a path on the disk; the directories under it are these.
fn sync_files_under<F: Fs>(
    alloc: Global,
    fs: &mut F,
    top: &Path,
    dirs: &[Path],
) -> Result<(), FsError>
    ensures told { F.told fs.new ≡ F.told fs.old }
    ensures firm { F.firm fs.new ≡ F.firm fs.old }
    ensures calls { F.told fs.old ≡ true → AllByRecursion (IsUnder top.now) dirs.now → Goes (SyncsFiles top.now) (F.trail fs.old) (F.trail fs.new) }
    ensures decided { F.told fs.old ≡ true → IsTree (F.trail fs.old).present.names → AreDirsUnder (F.trail fs.old).present top.now dirs.now → DecidedBy (refusal (F.trail fs.old).present (Stats top.now)) result }
    ensures clean { F.told fs.old ≡ true → IsTree (F.trail fs.old).present.names → AreDirsUnder (F.trail fs.old).present top.now dirs.now → OnOk result ((path : Path) → IsUnder top.now path → IsCleanAt path (F.trail fs.new).present) }
    ensures cause { HasCause (F.firm fs.old) (F.counts fs.old) (F.counts fs.new) (unless_lack (error_of result)) }
    ensures others { OthersStay (F.counts fs.old) (F.counts fs.new) (error_of result) }
{
    sync_leaf(fs, top)?;
    sync_files(alloc, fs, dirs)
}

/// Puts each file of a walk on the disk, and then each directory of it. Symbolic links are not followed. It keeps the
/// paths of the directories and of the names in one of them. Refuses as `stat` does.
pub fn sync_tree<F: Fs>(alloc: Global, fs: &mut F, top: &Path) -> Result<(), FsError>
    ensures told { F.told fs.new ≡ F.told fs.old }
    ensures firm { F.firm fs.new ≡ F.firm fs.old }
    ensures calls { F.told fs.old ≡ true → SyncsTree top.now (F.trail fs.old) (F.trail fs.new) }
    ensures keeps { F.told fs.old ≡ true → Since (OnlySyncs (F.trail fs.old).present) (F.trail fs.old) (F.trail fs.new) }
    ensures disk { F.told fs.old ≡ true → Since (KeepsDisk top.now (F.trail fs.old).present) (F.trail fs.old) (F.trail fs.new) }
    ensures decided { F.told fs.old ≡ true → DecidedBy (refusal (F.trail fs.old).present (Stats top.now)) result }
    ensures synced { F.told fs.old ≡ true → OnOk result (IsSynced (top.now ∷ []) (F.trail fs.new).present) }
    ensures cause { HasCause (F.firm fs.old) (F.counts fs.old) (F.counts fs.new) (unless_lack (error_of result)) }
    ensures others { OthersStay (F.counts fs.old) (F.counts fs.new) (error_of result) }
{
    // A file system that tells its states is in a well-formed one; this asks for that.
    let _ = fs.moment();
    let dirs = dirs_under(alloc, fs, top)?;
    sync_files_under(alloc, fs, top, &dirs)?;
    sync_dirs(fs, &dirs)
}

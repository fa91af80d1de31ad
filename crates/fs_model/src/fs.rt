// A file system, by the states that its calls lead through.
ghost use Rattle.std.specs.Prelude.{◌≡◌, ◌≤◌, ◌<◌, ◌+◌, ◌-◌, ◌^◌, ℕ, Bool, true, Some, length, min, IfOk, OnOk};
ghost use Rattle.std.specs.FinMap as map;
ghost use Rattle.fs_model.specs.declared.node.Node.TheVariants.{Sym};
ghost use Rattle.fs_model.specs.Calls.{Stats, Lists, ReadsAt, ReadsLink, Creates, WritesAt, MakesDir, MakesSymlink, Links, Renames, Unlinks, RemovesDir, SyncsFile, SyncsDir, children};
ghost use Rattle.fs_model.specs.Reading.{stat_of, Reads};
ghost use Rattle.fs_model.specs.WellFormed.{WellFormed};
ghost use Rattle.fs_model.specs.Trail.{Trail, Counts, Steps, HasCause, OthersStay, error_of};

use crate::{FsError, Name, Path, Stat};
use std::alloc::Global;

/// A file system. It may tell the trail of its states; then each call's answer and effect are those that the state
/// before it allows. Whether it is told or not, each error has its cause in a count. Nobody else changes the files.
///
/// Errors of every call: `NotFound` and `NotDir` where a name on the way does not stand or is no directory, the
/// shortest such way first; `Failed` where the file system fails; `OutOfMemory`, which leaves the state and is no
/// call that `moment` counts.
pub trait Fs {
    /// Whether it tells its trail. No call changes it.
    ghost told: { Self → Bool };

    /// The states that it was in, where they are told.
    ghost trail: { Self → Trail };

    /// How often it failed, refused a call and lacked memory. None of them falls.
    ghost counts: { Self → Counts };

    /// Whether it never fails. No call changes it.
    ghost firm: { Self → Bool };

    /// `list` answers only for paths with fewer names. Reading calls leave it.
    ghost depth: { Self → ℕ };

    /// The kind, size and identity of what stands at a path. A symbolic link is not followed.
    /// Refuses: `NotFound`.
    fn stat(&mut self, at: &Path) -> Result<Stat, FsError>
        ensures told { told self.new ≡ told self.old }
        ensures firm { firm self.new ≡ firm self.old }
        ensures depth { depth self.new ≡ depth self.old }
        ensures steps { told self.old ≡ true → Steps (Stats at.now) (error_of result) (trail self.old) (trail self.new) }
        ensures gives { told self.old ≡ true → IfOk result (λ stat. stat_of (trail self.old).present at.now ≡ Some stat) }
        ensures size { IfOk result (λ stat. stat.size ≤ 2 ^ 63 - 1) }
        ensures cause { HasCause (firm self.old) (counts self.old) (counts self.new) (error_of result) }
        ensures others { OthersStay (counts self.old) (counts self.new) (error_of result) };

    /// The names in a directory, in ascending order of their bytes.
    /// Refuses: `NotFound`, `NotDir`.
    fn list(&mut self, alloc: Global, at: &Path) -> Result<Vec<Name>, FsError>
        ensures told { told self.new ≡ told self.old }
        ensures firm { firm self.new ≡ firm self.old }
        ensures depth { depth self.new ≡ depth self.old }
        ensures shallow { OnOk result (length at.now < depth self.old) }
        ensures steps { told self.old ≡ true → Steps (Lists at.now) (error_of result) (trail self.old) (trail self.new) }
        ensures gives { told self.old ≡ true → IfOk result (λ names. names.items ≡ children (trail self.old).present.names at.now) }
        ensures cause { HasCause (firm self.old) (counts self.old) (counts self.new) (error_of result) }
        ensures others { OthersStay (counts self.old) (counts self.new) (error_of result) };

    /// Reads a file's bytes from a place on into the slice, and gives how many: as many as there are and fit.
    /// Refuses: `NotFound`, `WrongKind` where it is no file.
    fn read_at(&mut self, at: &Path, from: u64, into: &mut [u8]) -> Result<usize, FsError>
        requires { from + length into.old ≤ 2 ^ 63 - 1 }
        ensures told { told self.new ≡ told self.old }
        ensures firm { firm self.new ≡ firm self.old }
        ensures depth { depth self.new ≡ depth self.old }
        ensures steps { told self.old ≡ true → Steps (ReadsAt at.now) (error_of result) (trail self.old) (trail self.new) }
        ensures gives { told self.old ≡ true → IfOk result (λ count. Reads (trail self.old).present at.now from count into.new) }
        ensures count { IfOk result (λ count. count ≤ length into.old) }
        ensures cause { HasCause (firm self.old) (counts self.old) (counts self.new) (error_of result) }
        ensures others { OthersStay (counts self.old) (counts self.new) (error_of result) };

    /// The target of a symbolic link.
    /// Refuses: `NotFound`, `WrongKind` where it is no symbolic link.
    fn read_link(&mut self, alloc: Global, at: &Path) -> Result<Path, FsError>
        ensures told { told self.new ≡ told self.old }
        ensures firm { firm self.new ≡ firm self.old }
        ensures depth { depth self.new ≡ depth self.old }
        ensures steps { told self.old ≡ true → Steps (ReadsLink at.now) (error_of result) (trail self.old) (trail self.new) }
        ensures gives { told self.old ≡ true → IfOk result (λ target. map.get (trail self.old).present.names at.now ≡ Some (Sym target)) }
        ensures cause { HasCause (firm self.old) (counts self.old) (counts self.new) (error_of result) }
        ensures others { OthersStay (counts self.old) (counts self.new) (error_of result) };

    /// Makes a file with no bytes, in an inode of a new number.
    /// Refuses: `Exists`.
    fn create(&mut self, at: &Path) -> Result<(), FsError>
        ensures told { told self.new ≡ told self.old }
        ensures firm { firm self.new ≡ firm self.old }
        ensures steps { told self.old ≡ true → Steps (Creates at.now) (error_of result) (trail self.old) (trail self.new) }
        ensures cause { HasCause (firm self.old) (counts self.old) (counts self.new) (error_of result) }
        ensures others { OthersStay (counts self.old) (counts self.new) (error_of result) };

    /// Writes the bytes into a file from a place on. A gap before them is zeros. After a failure the file has any bytes.
    /// Refuses: `NotFound`, `WrongKind` where it is no file.
    fn write_at(&mut self, at: &Path, from: u64, bytes: &[u8]) -> Result<(), FsError>
        requires { from + length bytes.now ≤ 2 ^ 63 - 1 }
        ensures told { told self.new ≡ told self.old }
        ensures firm { firm self.new ≡ firm self.old }
        ensures steps { told self.old ≡ true → Steps (WritesAt at.now from bytes.now) (error_of result) (trail self.old) (trail self.new) }
        ensures cause { HasCause (firm self.old) (counts self.old) (counts self.new) (error_of result) }
        ensures others { OthersStay (counts self.old) (counts self.new) (error_of result) };

    /// Makes a directory, on its parent's device.
    /// Refuses: `Exists`.
    fn make_dir(&mut self, at: &Path) -> Result<(), FsError>
        ensures told { told self.new ≡ told self.old }
        ensures firm { firm self.new ≡ firm self.old }
        ensures steps { told self.old ≡ true → Steps (MakesDir at.now) (error_of result) (trail self.old) (trail self.new) }
        ensures cause { HasCause (firm self.old) (counts self.old) (counts self.new) (error_of result) }
        ensures others { OthersStay (counts self.old) (counts self.new) (error_of result) };

    /// Makes a symbolic link. The target is not tested.
    /// Refuses: `Exists`.
    fn make_symlink(&mut self, at: &Path, target: &Path) -> Result<(), FsError>
        ensures told { told self.new ≡ told self.old }
        ensures firm { firm self.new ≡ firm self.old }
        ensures steps { told self.old ≡ true → Steps (MakesSymlink at.now target.now) (error_of result) (trail self.old) (trail self.new) }
        ensures cause { HasCause (firm self.old) (counts self.old) (counts self.new) (error_of result) }
        ensures others { OthersStay (counts self.old) (counts self.new) (error_of result) };

    /// Gives a file a second name.
    /// Refuses: the ways of both paths; `NotFound`, `WrongKind` where `from` is no file; `Exists` where `to` stands;
    /// `CrossDevice` where their directories are on different devices.
    fn link(&mut self, from: &Path, to: &Path) -> Result<(), FsError>
        ensures told { told self.new ≡ told self.old }
        ensures firm { firm self.new ≡ firm self.old }
        ensures steps { told self.old ≡ true → Steps (Links from.now to.now) (error_of result) (trail self.old) (trail self.new) }
        ensures cause { HasCause (firm self.old) (counts self.old) (counts self.new) (error_of result) }
        ensures others { OthersStay (counts self.old) (counts self.new) (error_of result) };

    /// Gives a file another name in its directory. Nothing is replaced.
    /// Refuses: the ways of both paths; `CrossDir` where they are no names of one directory; `NotFound`, `WrongKind`
    /// where `from` is no file; `Exists` where `to` stands.
    fn rename(&mut self, from: &Path, to: &Path) -> Result<(), FsError>
        ensures told { told self.new ≡ told self.old }
        ensures firm { firm self.new ≡ firm self.old }
        ensures steps { told self.old ≡ true → Steps (Renames from.now to.now) (error_of result) (trail self.old) (trail self.new) }
        ensures cause { HasCause (firm self.old) (counts self.old) (counts self.new) (error_of result) }
        ensures others { OthersStay (counts self.old) (counts self.new) (error_of result) };

    /// Removes the name of a file or a symbolic link.
    /// Refuses: `NotFound`, `WrongKind` where it is a directory.
    fn unlink(&mut self, at: &Path) -> Result<(), FsError>
        ensures told { told self.new ≡ told self.old }
        ensures firm { firm self.new ≡ firm self.old }
        ensures steps { told self.old ≡ true → Steps (Unlinks at.now) (error_of result) (trail self.old) (trail self.new) }
        ensures cause { HasCause (firm self.old) (counts self.old) (counts self.new) (error_of result) }
        ensures others { OthersStay (counts self.old) (counts self.new) (error_of result) };

    /// Removes an empty directory.
    /// Refuses: `NotFound`, `NotDir`, `NotEmpty`, which the root is always.
    fn remove_dir(&mut self, at: &Path) -> Result<(), FsError>
        ensures told { told self.new ≡ told self.old }
        ensures firm { firm self.new ≡ firm self.old }
        ensures steps { told self.old ≡ true → Steps (RemovesDir at.now) (error_of result) (trail self.old) (trail self.new) }
        ensures cause { HasCause (firm self.old) (counts self.old) (counts self.new) (error_of result) }
        ensures others { OthersStay (counts self.old) (counts self.new) (error_of result) };

    /// Puts a file's bytes on the disk.
    /// Refuses: `NotFound`, `WrongKind` where it is no file.
    fn sync_file(&mut self, at: &Path) -> Result<(), FsError>
        ensures told { told self.new ≡ told self.old }
        ensures firm { firm self.new ≡ firm self.old }
        ensures steps { told self.old ≡ true → Steps (SyncsFile at.now) (error_of result) (trail self.old) (trail self.new) }
        ensures cause { HasCause (firm self.old) (counts self.old) (counts self.new) (error_of result) }
        ensures others { OthersStay (counts self.old) (counts self.new) (error_of result) };

    /// Puts a directory's changes of names on the disk.
    /// Refuses: `NotFound`, `NotDir`.
    fn sync_dir(&mut self, at: &Path) -> Result<(), FsError>
        ensures told { told self.new ≡ told self.old }
        ensures firm { firm self.new ≡ firm self.old }
        ensures steps { told self.old ≡ true → Steps (SyncsDir at.now) (error_of result) (trail self.old) (trail self.new) }
        ensures cause { HasCause (firm self.old) (counts self.old) (counts self.new) (error_of result) }
        ensures others { OthersStay (counts self.old) (counts self.new) (error_of result) };

    /// The number of calls so far, but for those that lacked memory. It stays at 2^64 - 1 once it is there.
    fn moment(&self) -> u64
        ensures number { told self.now ≡ true → result ≡ min (length (trail self.now).past) (2 ^ 64 - 1) }
        ensures well_formed { told self.now ≡ true → WellFormed (trail self.now).present };
}

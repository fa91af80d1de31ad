// The real disk as a file system.
ghost use Rattle.std.specs.Prelude.{◌≡◌, false};
ghost use Rattle.fs_model.specs.Trail.{Trail};
ghost use Rattle.fs_real.specs.Counted.{counts_of};
ghost use Rattle.fs_real.specs.Untold.{no_trail};

use crate::disk::Disk;
use crate::numbers::Numbers;
use crate::tally::Tally;
use fs_model::{Fs, FsError, Name, Path, Stat};
use std::alloc::Global;
use std::rt::Files;

/// The file system of the operating system, untold: no contract says what it holds. It answers as the trait's calls
/// do wherever nobody else changes the files. The device numbers are the operating system's, those of the inodes its
/// own. It fails, beside where the operating system does, at what the product doesn't know: sockets, devices and
/// FIFOs, names that are no `Name`, symbolic links whose target is no `Path`, and files above 2^63 - 1 bytes.
#[derive(Drop)]
pub struct RealFs<'a, R: Files> {
    disk: Disk<'a, R>,
    numbers: Numbers,
    tally: Tally,
}

impl<'a, R: Files> RealFs<'a, R> {
    /// Only keeps what it is given: takes no memory and makes no call.
    pub fn new(rt: &'a R, alloc: Global) -> RealFs<'a, R>
        ensures { counts_of result.tally ≡ record { faults = 0; refusals = 0; lacks = 0 } }
    {
        RealFs {
            disk: Disk::new(rt, alloc),
            numbers: Numbers::new(alloc),
            tally: Tally::new(),
        }
    }
}

impl<'a, R: Files> Fs for RealFs<'a, R> {
    ghost told = { λ _. false };

    ghost trail = { λ _. no_trail };

    ghost counts = { λ s. counts_of s.tally };

    ghost firm = { λ _. false };

    ghost depth = { λ _. 4096 };

    fn stat(&mut self, at: &Path) -> Result<Stat, FsError> {
        let answer = self.disk.stat(&mut self.numbers, at);
        self.tally.close(answer)
    }

    fn list(&mut self, alloc: Global, at: &Path) -> Result<Vec<Name>, FsError> {
        let answer = self.disk.list(alloc, at);
        self.tally.close(answer)
    }

    fn read_at(&mut self, at: &Path, from: u64, into: &mut [u8]) -> Result<usize, FsError> {
        let answer = self.disk.read_at(at, from, into);
        self.tally.close(answer)
    }

    fn read_link(&mut self, alloc: Global, at: &Path) -> Result<Path, FsError> {
        let answer = self.disk.read_link(alloc, at);
        self.tally.close(answer)
    }

    fn create(&mut self, at: &Path) -> Result<(), FsError> {
        let answer = self.disk.create(&mut self.numbers, at);
        self.tally.close(answer)
    }

    fn write_at(&mut self, at: &Path, from: u64, bytes: &[u8]) -> Result<(), FsError> {
        let answer = self.disk.write_at(at, from, bytes);
        self.tally.close(answer)
    }

    fn make_dir(&mut self, at: &Path) -> Result<(), FsError> {
        let answer = self.disk.make_dir(at);
        self.tally.close(answer)
    }

    fn make_symlink(&mut self, at: &Path, target: &Path) -> Result<(), FsError> {
        let answer = self.disk.make_symlink(at, target);
        self.tally.close(answer)
    }

    fn link(&mut self, from: &Path, to: &Path) -> Result<(), FsError> {
        let answer = self.disk.link(from, to);
        self.tally.close(answer)
    }

    fn rename(&mut self, from: &Path, to: &Path) -> Result<(), FsError> {
        let answer = self.disk.rename(from, to);
        self.tally.close(answer)
    }

    fn unlink(&mut self, at: &Path) -> Result<(), FsError> {
        let answer = self.disk.unlink(at);
        self.tally.close(answer)
    }

    fn remove_dir(&mut self, at: &Path) -> Result<(), FsError> {
        let answer = self.disk.remove_dir(at);
        self.tally.close(answer)
    }

    fn sync_file(&mut self, at: &Path) -> Result<(), FsError> {
        let answer = self.disk.sync_file(at);
        self.tally.close(answer)
    }

    fn sync_dir(&mut self, at: &Path) -> Result<(), FsError> {
        let answer = self.disk.sync_dir(at);
        self.tally.close(answer)
    }

    fn moment(&self) -> u64 {
        self.tally.calls()
    }
}

// A file system of one file that reads in short steps and says any size. It tells no trail, so that no contract says what
// comes of these calls.
ghost use Rattle.std.specs.Prelude.{◌-◌, ◌^◌, false, []};
ghost use Rattle.std.specs.FinMap.{empty};

use crate::called::Called;
use crate::tools::answer;
use fs_model::{Fs, FsError, Identity, Kind, Name, Path, Stat};
use fs_words::{bytes, number, shown};
use std::alloc::{AllocError, Global};

/// The only file, at every path.
#[derive(Drop)]
pub(crate) struct OneFile {
    stands: bool,
    bytes: Vec<u8>,
    // What `stat` says, in bytes.
    size: u32,
    // How many bytes a read gives at most.
    step: usize,
    // How many reads and writes come before the first that fails.
    calls: usize,
}

// A file of this text, which `stat` says has `size` bytes.
fn file(alloc: Global, text: &str, size: u32, step: u32, calls: u32) -> Result<OneFile, FsError> {
    Ok(OneFile {
        stands: true,
        bytes: bytes(alloc, text)?,
        size,
        step: step as usize,
        calls: calls as usize,
    })
}

/// The file that the words say: its text, its size, the step of a read, and how many reads and writes come before the first
/// that fails.
pub(crate) fn one_file(alloc: Global, words: &str) -> Result<OneFile, FsError> {
    let (text, rest) = words.split_once(' ').unwrap_or((words, ""));
    let (size, rest) = rest.split_once(' ').unwrap_or((rest, ""));
    let (step, calls) = rest.split_once(' ').unwrap_or((rest, ""));
    file(alloc, text, number(size)?, number(step)?, number(calls)?)
}

impl Fs for OneFile {
    ghost told = { λ _. false };

    ghost trail = { λ _. record { present = record { names = empty; bytes = empty; names_kept = empty; bytes_kept = empty; pending = []; dirty = empty; devices = empty }; past = [] } };

    ghost counts = { λ _. record { faults = 2 ^ 64 - 1; refusals = 2 ^ 64 - 1; lacks = 2 ^ 64 - 1 } };

    ghost firm = { λ _. false };

    ghost depth = { λ _. 0 };

    fn stat(&mut self, _: &Path) -> Result<Stat, FsError> {
        if !self.stands {
            return Err(FsError::NotFound);
        }
        Ok(Stat {
            kind: Kind::File,
            size: u64::from(self.size),
            identity: Identity {
                device: 1,
                inode: 1,
            },
        })
    }

    fn list(&mut self, _: Global, _: &Path) -> Result<Vec<Name>, FsError> {
        Err(FsError::NotDir)
    }

    fn read_at(&mut self, _: &Path, from: u64, into: &mut [u8]) -> Result<usize, FsError> {
        if self.calls == 0 {
            return Err(FsError::Failed);
        }
        self.calls -= 1;
        let start = self.bytes.len().min(from as usize);
        let rest = &self.bytes[start..];
        let count = rest.len().min(into.len()).min(self.step);
        into[..count].copy_from_slice(&rest[..count]);
        Ok(count)
    }

    fn read_link(&mut self, _: Global, _: &Path) -> Result<Path, FsError> {
        Err(FsError::WrongKind)
    }

    fn create(&mut self, _: &Path) -> Result<(), FsError> {
        if self.stands {
            return Err(FsError::Exists);
        }
        self.stands = true;
        self.bytes.clear();
        Ok(())
    }

    fn write_at(&mut self, _: &Path, from: u64, bytes: &[u8]) -> Result<(), FsError> {
        if self.calls == 0 {
            return Err(FsError::Failed);
        }
        self.calls -= 1;
        self.bytes.resize(from as usize, 0)?;
        self.bytes.extend_from_slice(bytes)?;
        Ok(())
    }

    fn make_dir(&mut self, _: &Path) -> Result<(), FsError> {
        Err(FsError::Failed)
    }

    fn make_symlink(&mut self, _: &Path, _: &Path) -> Result<(), FsError> {
        Err(FsError::Failed)
    }

    fn link(&mut self, _: &Path, _: &Path) -> Result<(), FsError> {
        Err(FsError::Failed)
    }

    fn rename(&mut self, _: &Path, _: &Path) -> Result<(), FsError> {
        Err(FsError::Failed)
    }

    fn unlink(&mut self, _: &Path) -> Result<(), FsError> {
        self.stands = false;
        Ok(())
    }

    fn remove_dir(&mut self, _: &Path) -> Result<(), FsError> {
        Err(FsError::Failed)
    }

    fn sync_file(&mut self, _: &Path) -> Result<(), FsError> {
        Err(FsError::Failed)
    }

    fn sync_dir(&mut self, _: &Path) -> Result<(), FsError> {
        Err(FsError::Failed)
    }

    fn moment(&self) -> u64 {
        0
    }
}

impl Called for OneFile {
    fn called(&mut self, alloc: Global, line: &str) -> Result<String, AllocError> {
        match line {
            "bytes" => shown(alloc, &self.bytes),
            "fail" => {
                self.calls = 0;
                String::from_str(alloc, "ok")
            }
            _ => answer(alloc, self, line),
        }
    }
}

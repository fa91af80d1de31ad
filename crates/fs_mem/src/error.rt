// Why a file system in memory was not made.
use std::alloc::{AllocError, AllocFailed};
use thiserror::Error;

/// Why a tree is none; each but the last with the place of the entry, counted from 0.
#[derive(Clone, Copy, Debug, PartialEq, Eq, Error)]
pub enum TreeError {
    /// The directory that the entry stands in is no earlier entry.
    #[error("entry {0} has no parent")]
    NoParent(usize),
    /// An earlier entry has the path, or it is the root.
    #[error("entry {0} stands twice")]
    Twice(usize),
    /// An earlier file of that inode has other bytes.
    #[error("entry {0} has other bytes than its inode")]
    InodeDiffers(usize),
    /// Memory lacked.
    #[error("out of memory")]
    OutOfMemory,
}

impl From<AllocError> for TreeError {
    ghost use Rattle.std.specs.Prelude.{◌≡◌};
    ghost use Rattle.fs_mem.specs.declared.error.TreeError.TheVariants.{OutOfMemory};

    ghost from_gives = { λ _ e. e ≡ OutOfMemory };

    fn from(_: AllocError) -> TreeError {
        TreeError::OutOfMemory
    }
}

impl<T: Drop> From<AllocFailed<T>> for TreeError {
    ghost use Rattle.std.specs.Prelude.{◌≡◌};
    ghost use Rattle.fs_mem.specs.declared.error.TreeError.TheVariants.{OutOfMemory};

    ghost from_gives = { λ _ e. e ≡ OutOfMemory };

    fn from(_: AllocFailed<T>) -> TreeError {
        TreeError::OutOfMemory
    }
}

/// Why there is no image or no tree.
#[derive(Clone, Copy, Debug, PartialEq, Eq, Error)]
pub enum ImageError {
    /// There were not that many calls.
    #[error("no such moment")]
    NoMoment,
    /// Memory lacked.
    #[error("out of memory")]
    OutOfMemory,
}

impl From<AllocError> for ImageError {
    ghost use Rattle.std.specs.Prelude.{◌≡◌};
    ghost use Rattle.fs_mem.specs.declared.error.ImageError.TheVariants.{OutOfMemory};

    ghost from_gives = { λ _ e. e ≡ OutOfMemory };

    fn from(_: AllocError) -> ImageError {
        ImageError::OutOfMemory
    }
}

impl<T: Drop> From<AllocFailed<T>> for ImageError {
    ghost use Rattle.std.specs.Prelude.{◌≡◌};
    ghost use Rattle.fs_mem.specs.declared.error.ImageError.TheVariants.{OutOfMemory};

    ghost from_gives = { λ _ e. e ≡ OutOfMemory };

    fn from(_: AllocFailed<T>) -> ImageError {
        ImageError::OutOfMemory
    }
}

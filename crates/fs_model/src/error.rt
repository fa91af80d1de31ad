ghost use Rattle.std.specs.Prelude.{◌≡◌};

use std::alloc::{AllocError, AllocFailed};
use thiserror::Error;

/// Why a call on a file system did nothing or failed.
#[derive(Clone, Copy, Debug, PartialEq, Eq, Error)]
pub enum FsError {
    /// A name on the way, or the last one, does not stand.
    #[error("not found")]
    NotFound,
    /// The name stands already.
    #[error("exists")]
    Exists,
    /// A name on the way, or the last one, is no directory.
    #[error("not a directory")]
    NotDir,
    /// What stands there is of another kind.
    #[error("wrong kind")]
    WrongKind,
    /// The directory has names.
    #[error("not empty")]
    NotEmpty,
    /// The two directories are on different devices.
    #[error("cross device")]
    CrossDevice,
    /// The two names are of different directories.
    #[error("cross directory")]
    CrossDir,
    /// The file system itself failed.
    #[error("failed")]
    Failed,
    /// Memory lacked.
    #[error("out of memory")]
    OutOfMemory,
}

impl From<AllocError> for FsError {
    ghost use Rattle.std.specs.Prelude.{◌≡◌};
    ghost use Rattle.fs_model.specs.declared.error.FsError.TheVariants.{OutOfMemory};

    ghost from_gives = { λ _ e. e ≡ OutOfMemory };

    fn from(_: AllocError) -> FsError {
        FsError::OutOfMemory
    }
}

impl<T: Drop> From<AllocFailed<T>> for FsError {
    ghost use Rattle.std.specs.Prelude.{◌≡◌};
    ghost use Rattle.fs_model.specs.declared.error.FsError.TheVariants.{OutOfMemory};

    ghost from_gives = { λ _ e. e ≡ OutOfMemory };

    fn from(_: AllocFailed<T>) -> FsError {
        FsError::OutOfMemory
    }
}

/// Why a text is no path or no name.
#[derive(Clone, Copy, Debug, PartialEq, Eq, Error)]
pub enum PathError {
    /// The text has no such reading.
    #[error("not a path")]
    Bad,
    /// Memory lacked.
    #[error("out of memory")]
    OutOfMemory,
}

impl From<AllocError> for PathError {
    ghost use Rattle.std.specs.Prelude.{◌≡◌};
    ghost use Rattle.fs_model.specs.declared.error.PathError.TheVariants.{OutOfMemory};

    ghost from_gives = { λ _ e. e ≡ OutOfMemory };

    fn from(_: AllocError) -> PathError {
        PathError::OutOfMemory
    }
}

impl<T: Drop> From<AllocFailed<T>> for PathError {
    ghost use Rattle.std.specs.Prelude.{◌≡◌};
    ghost use Rattle.fs_model.specs.declared.error.PathError.TheVariants.{OutOfMemory};

    ghost from_gives = { λ _ e. e ≡ OutOfMemory };

    fn from(_: AllocFailed<T>) -> PathError {
        PathError::OutOfMemory
    }
}

/// Why bytes were not written to a sink.
#[derive(Clone, Copy, Debug, PartialEq, Eq, Error)]
pub enum SinkError {
    /// The sink itself failed.
    #[error("failed")]
    Failed,
    /// Memory lacked.
    #[error("out of memory")]
    OutOfMemory,
}

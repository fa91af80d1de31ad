// Why no pair of clusters was made.
use std::alloc::{AllocError, AllocFailed};
use thiserror::Error;

/// Why no pair of clusters was made.
#[derive(Clone, Copy, Debug, PartialEq, Eq, Error)]
pub enum GenError {
    /// More than 200 tables were asked for.
    #[error("too many tables")]
    TooMany,
    /// Memory lacked.
    #[error("out of memory")]
    OutOfMemory,
}

impl From<AllocError> for GenError {
    ghost use Rattle.std.specs.Prelude.{◌≡◌};
    ghost use Rattle.cluster_gen.specs.declared.error.GenError.TheVariants.{OutOfMemory};

    ghost from_gives = { λ _ e. e ≡ OutOfMemory };

    fn from(_: AllocError) -> GenError {
        GenError::OutOfMemory
    }
}

impl<T: Drop> From<AllocFailed<T>> for GenError {
    ghost use Rattle.std.specs.Prelude.{◌≡◌};
    ghost use Rattle.cluster_gen.specs.declared.error.GenError.TheVariants.{OutOfMemory};

    ghost from_gives = { λ _ e. e ≡ OutOfMemory };

    fn from(_: AllocFailed<T>) -> GenError {
        GenError::OutOfMemory
    }
}

// Why words aren't read.

use std::alloc::{AllocError, AllocFailed};

#[derive(Clone, Copy)]
pub enum ReadError {
    // They are no statement.
    Unknown,
    OutOfMemory,
}

impl From<AllocError> for ReadError {
    ghost use Rattle.std.specs.Prelude.{◌≡◌};
    ghost use Rattle.dump_read.specs.declared.error.ReadError.TheVariants.{OutOfMemory};

    ghost from_gives = { λ _ e. e ≡ OutOfMemory };

    fn from(_: AllocError) -> ReadError {
        ReadError::OutOfMemory
    }
}

impl<T: Drop> From<AllocFailed<T>> for ReadError {
    ghost use Rattle.std.specs.Prelude.{◌≡◌};
    ghost use Rattle.dump_read.specs.declared.error.ReadError.TheVariants.{OutOfMemory};

    ghost from_gives = { λ _ e. e ≡ OutOfMemory };

    fn from(_: AllocFailed<T>) -> ReadError {
        ReadError::OutOfMemory
    }
}

use std::alloc::AllocError;
use thiserror::Error;

/// Why parts make no segments.
#[derive(Clone, Copy, Debug, PartialEq, Eq, Error)]
pub enum SegmentsError {
    /// The least segment number that comes twice.
    #[error("segment {0} comes twice")]
    Twice(u32),
    /// Memory lacked.
    #[error("out of memory")]
    OutOfMemory,
}

impl From<AllocError> for SegmentsError {
    ghost use Rattle.std.specs.Prelude.{◌≡◌};
    ghost use Rattle.xact_status.specs.declared.error.SegmentsError.TheVariants.{OutOfMemory};

    ghost from_gives = { λ _ e. e ≡ OutOfMemory };

    fn from(_: AllocError) -> SegmentsError {
        SegmentsError::OutOfMemory
    }
}

// Why the tests stopped.
use crate::refusal::ControlRefusal;
use control_file::Side;
use std::alloc::AllocError;

/// Why the conditions are not all known to be met.
#[derive(Clone, Copy, Debug, PartialEq, Eq)]
pub enum CheckStop {
    /// This condition holds, and none before it.
    Refused(ControlRefusal),
    /// The file system failed at a condition that speaks of this side; at one that speaks of both, it is the old side.
    Failed(Side),
    /// Memory lacked.
    OutOfMemory,
}

impl From<AllocError> for CheckStop {
    ghost use Rattle.std.specs.Prelude.{◌≡◌};
    ghost use Rattle.control_checks.specs.declared.stop.CheckStop.TheVariants.{OutOfMemory};

    ghost from_gives = { λ _ e. e ≡ OutOfMemory };

    fn from(_: AllocError) -> CheckStop {
        CheckStop::OutOfMemory
    }
}

impl From<ControlRefusal> for CheckStop {
    ghost use Rattle.std.specs.Prelude.{◌≡◌};
    ghost use Rattle.control_checks.specs.declared.stop.CheckStop.TheVariants.{Refused};

    ghost from_gives = { λ refusal e. e ≡ Refused refusal };

    fn from(refusal: ControlRefusal) -> CheckStop {
        CheckStop::Refused(refusal)
    }
}

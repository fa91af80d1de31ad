// What was read of the control files.
ghost use Rattle.std.specs.Prelude.{◌≡◌, ◌≤◌, length, take, Ok, Err};
ghost use Rattle.std.specs.Result.{MatchResult};
ghost use Rattle.control_file.specs.ControlRecord.{control_in};
ghost use Rattle.control_checks.specs.Places.{release_of};
ghost use Rattle.control_checks.specs.Records.{SaysControl};

use crate::paths::release_of;
use control_file::{Control, ControlError, RECORD_BYTES, Side, read_control};

/// A control record.
#[derive(Clone, Copy, Debug, PartialEq, Eq)]
pub struct ReadControl {
    /// The first 296 bytes of the control file.
    pub head: [u8; 296],
    /// What they say.
    pub control: Control,
}

/// The control records of both clusters.
#[derive(Clone, Copy, Debug, PartialEq, Eq)]
pub struct Controls {
    pub old: ReadControl,
    pub new: ReadControl,
}

fn head_of(bytes: &[u8]) -> [u8; 296]
    requires { 296 ≤ length bytes.now }
    ensures { result ≡ take 296 bytes.now }
{
    let mut head = [0; 296];
    head.copy_from_slice(&bytes[..RECORD_BYTES]);
    head
}

/// What the bytes of a control file say of the side's release.
pub(crate) fn control_of(side: Side, bytes: &[u8]) -> Result<ReadControl, ControlError>
    ensures { MatchResult result (λ read. SaysControl side bytes.now read) (λ cause. control_in bytes.now (release_of side) ≡ Err cause) }
{
    let control = read_control(bytes, release_of(side))?;
    let head = head_of(bytes);
    Ok(ReadControl { head, control })
}

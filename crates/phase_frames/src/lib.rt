//! What every state of an upgrade has of the one that it opened in, also where not all was on the disk then: names and bytes
//! at old places and at those of neither cluster stay, but for the rename of the old control file. The laws say, step by
//! step, that its calls keep it (`IsFramed`), whatever they answer.
#![tactic(auto)]

mod disabling;
mod finishing;
mod leaving;
mod making;
mod opening;
mod restoring;
mod status;
mod transfer;

pub use disabling::disabling_keeps_frame;
pub use finishing::finishing_keeps_frame;
pub use leaving::{frame_keeps_elsewhere, frame_keeps_old};
pub use making::making_keeps_frame;
pub use opening::opening_is_framed;
pub use restoring::restoring_keeps_frame;
pub use status::status_keeps_frame;
pub use transfer::transfer_keeps_frame;

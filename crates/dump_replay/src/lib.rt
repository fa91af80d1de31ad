//! Replaying a catalog text: its statements are applied to a catalog in turn, up to the first that can't be read or that
//! the rules refuse.
#![tactic(auto)]

mod laws;
mod replayer;

pub use laws::{allowed_is_replayed, loaded_is_sequence, replay_is_sequence, sequence_is_loaded};
pub use replayer::{load, replay};

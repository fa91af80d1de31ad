// The record of the calls of a file system in memory.
use fs_model::FsError;
use fs_state::Action;

/// What a call did, as it is recorded, and the error that it answered.
#[derive(Drop)]
pub struct Recorded {
    pub action: Action,
    pub answer: Option<FsError>,
}

/// The call of this number, counted from 0, is to fail: with the effect that it would have, or without.
#[derive(Clone, Copy)]
pub struct Failing {
    pub call: u64,
    pub effect: bool,
}

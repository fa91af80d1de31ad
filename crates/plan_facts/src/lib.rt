//! The plan of a transfer as an upgrade needs it: what it has, and when it can be made. Nothing is computed.
#![tactic(auto)]

mod planned;

pub use planned::{counted_can_be_planned, planned_is_carried};

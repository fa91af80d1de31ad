//! The words in which an upgrade tells how far it came: the names of its phases, and the counts of a finished one.
#![tactic(auto)]

mod names;
mod summary;

pub use names::PhaseName;
pub use summary::Summary;

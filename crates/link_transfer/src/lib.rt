//! Giving the files of a plan their new names, once the old cluster is disabled. The layer above uses whose file stands
//! at the new names in the end, or at those of a first part of the plan after an error; the calls that are made; and that
//! each state on the way keeps the crash invariant.
#![tactic(auto)]

mod laws;
mod linking;

pub use laws::only_carried_are_shared;
pub use linking::link_all;

//! Copying the files of a plan into the new cluster. The layer above uses what stands at the new names in the end, or of
//! a first part of the plan after an error; the calls that are made; and that each state on the way keeps the crash
//! invariant.
#![tactic(auto)]

mod copying;

pub use copying::copy_all;

//! What a cluster's status files tell of its transactions: `read_logs` reads the three directories of `pg_xact` and
//! `pg_multixact` as far as their files have the names of segments, and `Logs` answers by them as `known_of` and `updater`
//! do. No state is changed.
#![tactic(auto)]

mod laws;
mod logs;
mod segments;

pub use crate::laws::segment_names_law;
pub use crate::logs::{Logs, read_logs};
pub use crate::segments::{segment_number, segments_in};

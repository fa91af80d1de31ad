//! The rows of a table's fork and the chunks of a toast table's, read in pieces of at most 128 blocks from the
//! segments that `fork_read` found. No state is changed, and memory is that of the result and of one piece of 1 MiB.
#![tactic(auto)]

mod forks;
mod pieces;
mod scan;

pub use crate::forks::{fork_chunks, fork_rows};

//! What a block of a table holds: `add_block` adds the rows that a snapshot sees, with their values, and `add_chunks` the
//! chunks of a toast table's block. Both are exact by the definitions of `cluster_meaning`; no file is touched here.
#![tactic(auto)]

mod blocks;
mod chunks;
mod rows;
mod source;
mod values;

pub use crate::blocks::{Reader, add_block};
pub use crate::chunks::add_chunks;
pub use crate::rows::{Row, Rows, Values};
pub use crate::source::Source;

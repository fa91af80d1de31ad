//! The blocks of a fork, from its segment files: `extents_of` looks at each segment once and tells which blocks count, and
//! `read_piece` reads many of them at once. Where the file system tells its state, both are exact by the definition `blocks_of`.
#![tactic(auto)]

mod extents;
mod reads;

pub use crate::extents::{Extent, Extents, extents_of};
pub use crate::reads::{PIECE_BLOCKS, file_size, read_piece};

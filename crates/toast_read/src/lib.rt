//! Values that are stored out of line: `ToastIndex` keeps the chunks of a toast table by the values that they are of, and
//! `fetch` joins those of the value that a pointer leads to, exactly by the definition `fetched` over the chunks in the
//! order in which they came. A look-up is logarithmic, and a value costs its chunks, whatever their numbers are.
#![tactic(auto)]

mod chunk;
mod error;
mod index;
mod join;
mod laws;

pub use crate::chunk::{Chunk, ChunkList};
pub use crate::error::ToastError;
pub use crate::index::ToastIndex;
pub use crate::laws::index_law;

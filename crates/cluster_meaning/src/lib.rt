//! What a cluster means: the blocks of its relations, their items and values, and what each snapshot sees. The definitions
//! are functions of a file system's state; `carried_meaning_law` says that a cluster to which all parts of another were
//! carried means what that one does. No code of a reader is here.
#![tactic(auto)]

mod laws;
mod value;

pub use crate::laws::{carried_blocks_law, carried_meaning_law, same_parts_law};
pub use crate::value::Value;

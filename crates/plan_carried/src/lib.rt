//! What copying or linking the files of a plan leaves: of each relation of the catalog exactly the carried files, as what a
//! cluster means needs it.
#![tactic(auto)]

mod laws;

pub use crate::laws::{copies_carry, links_carry};

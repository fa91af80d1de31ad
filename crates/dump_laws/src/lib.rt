//! Laws of the catalog text: the statements of a valid catalog lead to it, and can be written.
#![tactic(auto)]

mod laws;

pub use laws::{statements_are_writable, statements_replay};

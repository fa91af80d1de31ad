//! Calls of a file system as lines of text, and what they give in words, for the programs that test file systems: their cases
//! are text, and cost no proof.
#![tactic(auto)]

mod answers;
mod lines;
mod words;

pub use answers::answer;
pub use lines::{call, check, note};
pub use words::{bytes, number, path, shown};

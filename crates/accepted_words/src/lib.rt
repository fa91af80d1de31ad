//! The command lines that a run accepts: an upgrade, a report or a self-test. They are those of `command_words`, as the lines
//! that a run goes by.
#![tactic(auto)]

mod line;

pub use line::{Line, read_line};

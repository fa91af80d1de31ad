//! The words of a command line, and what they ask for. Contracts say which lines are accepted by the choices that their
//! words spell; a fault has the least position from which on no accepted line goes.
#![tactic(auto)]

mod choosing;
mod chosen;
mod command;
mod reading;
mod selftest;
mod words;

pub use command::{Command, WordsError};
pub use reading::read_words;

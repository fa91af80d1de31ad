//! A law of the catalog text: the canonical lines of statements are tokens that spell these statements.
#![tactic(auto)]

mod laws;

pub use laws::lines_are_spelled;

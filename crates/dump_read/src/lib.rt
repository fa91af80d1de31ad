//! Reading the statements of a catalog text.
//!
//! A statement is its tokens up to `;`. What is read is what the table of the grammar spells, and nothing else: the laws
//! say so.
#![tactic(auto)]

mod columns;
mod created;
mod error;
mod form;
mod heads;
mod laws;
mod parts;
mod reader;
mod tables;
mod values;
mod words;

pub use laws::{read_is_spelled, spelled_is_read, spelled_text_stands};
pub use reader::{Located, read_located, read_statement};

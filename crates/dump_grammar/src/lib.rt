//! The statements of a catalog text, as values and as words: which words spell a statement, how its canonical line is
//! written, and which statements a catalog has.
//!
//! The table of the grammar is `specs/Pieces.antt`. What reads and what writes statements is held against it.
#![tactic(auto)]

mod column_texts;
mod columns;
mod error;
mod statement;
mod words;

pub use column_texts::ColumnTexts;
pub use columns::{ColumnText, NamedKind};
pub use error::{TextCause, TextError};
pub use statement::{NextKind, Statement};
pub use words::{align_word, flag_word, kind_word, type_word};

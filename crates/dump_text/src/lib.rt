//! The catalog text: a catalog as statements after pg_dump's binary-upgrade output, read, replayed and printed.
//!
//! The layer above uses `replay` and `load`, which are exact by the rules, and `print`, whose text is loaded as the
//! catalog that was printed.
#![tactic(auto)]

mod laws;
mod printer;

pub use catalog::CatalogError;
pub use dump_grammar::{
    ColumnText, ColumnTexts, NamedKind, NextKind, Statement, TextCause, TextError,
};
pub use dump_lex::LexKind;
pub use dump_read::read_statement;
pub use dump_replay::{load, replay};
pub use laws::{canonical_is_loaded, canonical_leads};
pub use printer::print;

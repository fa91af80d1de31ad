//! The tokens of a catalog text: every byte string is read to its tokens, or to its first error.
//!
//! The layer above uses the contract of `Lexer::next`, and the laws that tie `front`, by which that contract
//! is stated, to the grammar's own words.
#![tactic(auto)]

mod bytes;
mod enclosed;
mod front;
mod laws;
mod lexer;
mod token;
mod value;
mod written;

pub use laws::{
    blanks_separate, error_holds, failing_is_told, found_stands, parsed_is_read, reading_is_one,
    reading_parses, separated_is_blank, standing_is_found, text_is_read, values_are_read,
};
pub use lexer::Lexer;
pub use token::{LexError, LexKind, Token, TokenKind};
pub use value::{bytes_of, name_of, number_of, string_of};
pub use written::{is_word, put_hex, put_name, put_string};

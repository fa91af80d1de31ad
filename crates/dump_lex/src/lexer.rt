//! The lexer.

ghost use Rattle.std.specs.Prelude.{◌≡◌, ◌≤◌, IfOk, IfSome};
ghost use Rattle.dump_lex.specs.Grammar.{IsToken};
ghost use Rattle.dump_lex.specs.Place.{Place, Steps, IsSlice, IsInOrder, IsNamed, next};

use crate::bytes::{blank_len, newlines};
use crate::front::front;
use crate::token::{LexError, Token};
use std::marker::Model;

/// Reads the tokens of a text in order.
///
/// It keeps its place and the line there, so that reading a whole text is linear in its length.
#[derive(Drop)]
pub struct Lexer<'a> {
    source: &'a [u8],
    start: usize,
    line: u64,
}

impl<'a> Model for Lexer<'a> {
    ghost use Rattle.std.specs.Prelude.{◌≡◌, ◌≤◌, length};
    ghost use Rattle.dump_lex.specs.Place.{Place, line_at};

    ghost Value = { Place };

    ghost view = { λ l. record { source = l.source.now; start = l.start } };

    ghost invariant = { λ l. (l.start ≤ length l.source.now) × (l.line ≡ line_at l.source.now l.start) };
}

impl<'a> Lexer<'a> {
    /// A lexer at the start of a text.
    pub fn over(text: &'a [u8]) -> Lexer<'a>
        ensures { result ≡ record { source = text.now; start = 0 } }
    {
        Lexer {
            source: text,
            start: 0,
            line: 1,
        }
    }

    /// Another lexer at the same place: neither moves the other, so that a part of the text can be read twice.
    pub fn fork(&self) -> Lexer<'a>
        ensures { result ≡ self.now }
    {
        Lexer {
            source: self.source,
            start: self.start,
            line: self.line,
        }
    }

    /// The next token, or None at the end of the text.
    ///
    /// Spaces, newlines and comments from `--` to the end of their line separate tokens. An error leaves the
    /// lexer as it was, so that the next call gives the same error.
    #[tactic(auto, unfolding(crate::specs::Place::next))]
    pub fn next(&mut self) -> Result<Option<Token<'a>>, LexError>
        // The token that stands next, or why there is none, with the line. At the end and after an error the
        // lexer stays where it was.
        ensures exact { Steps (next self.old) self.old self.new result }
        ensures slice { IfOk result (λ o. IfSome o (IsSlice self.old.source)) }
        ensures in_order { IfOk result (λ o. IfSome o (IsInOrder self.old self.new)) }
        // How many bytes stand before the place behind it has 64 bits.
        ensures fits { IfOk result (λ o. self.new.start ≤ 18446744073709551615) }
        // The token is one of the grammar.
        ensures of_grammar { IfOk result (λ o. IfSome o (λ t. IsToken t.kind t.text.now)) }
        // The name that a plain word or a quoted name is, is one.
        ensures named { IfOk result (λ o. IfSome o (λ t. IsNamed t.kind t.text.now)) }
    {
        let source: &'a [u8] = self.source;
        let (_, rest) = source.split_at(self.start);
        let blank = blank_len(rest);
        let (skipped, bytes) = rest.split_at(blank);
        if bytes.is_empty() {
            return Ok(None);
        }
        let line = self.line + newlines(skipped) as u64;
        match front(bytes) {
            Err(kind) => Err(LexError { line, kind }),
            Ok((kind, len)) => {
                let (text, _) = bytes.split_at(len);
                let start = self.start + blank;
                self.start = start + len;
                self.line = line + newlines(text) as u64;
                Ok(Some(Token {
                    kind,
                    text,
                    start,
                    line,
                }))
            }
        }
    }
}

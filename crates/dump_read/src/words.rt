// The words of a statement, taken one after another.

ghost use Rattle.std.specs.Prelude.{◌≡◌, IfErr, length};
ghost use Rattle.dump_grammar.specs.Spelling.{word_of};
ghost use Rattle.dump_read.specs.Ahead.{words_ahead};
ghost use Rattle.dump_read.specs.Answer.{Answers, Takes, is_nil};
ghost use Rattle.dump_read.specs.Takes.{is_key, is_plain, is_mark, word_at, key_at, mark_at};

use crate::error::ReadError;
use dump_lex::{Lexer, Token, TokenKind};
use std::marker::Model;

#[tactic(auto, unfolding(crate::specs::Takes::is_key))]
pub fn is_key(token: &Token<'_>, text: &[u8]) -> bool
    ensures { result ≡ is_key text.now (word_of token.now) }
{
    match token.kind {
        TokenKind::Keyword => token.text == text,
        _ => false,
    }
}

#[tactic(auto, unfolding(crate::specs::Takes::is_plain))]
pub fn is_plain(token: &Token<'_>, text: &[u8]) -> bool
    ensures { result ≡ is_plain text.now (word_of token.now) }
{
    match token.kind {
        TokenKind::Plain => token.text == text,
        _ => false,
    }
}

#[tactic(auto, unfolding(crate::specs::Takes::is_mark))]
pub fn is_mark(token: &Token<'_>, b: u8) -> bool
    ensures { result ≡ is_mark b (word_of token.now) }
{
    match token.kind {
        TokenKind::Mark => token.text == [b].as_slice(),
        _ => false,
    }
}

// The words that are left of a statement: so many tokens from where a lexer stands. Each is read when it is taken, so
// that a statement needs no memory for its tokens.
#[derive(Drop)]
pub struct Words<'a> {
    lexer: Lexer<'a>,
    left: usize,
}

impl<'a> Model for Words<'a> {
    ghost use Rattle.std.specs.Prelude.{◌≡◌, List, length};
    ghost use Rattle.dump_grammar.specs.Spelling.{Word};
    ghost use Rattle.dump_read.specs.Ahead.{words_ahead};

    ghost Value = { List Word };

    ghost view = { λ w. words_ahead w.left w.lexer };

    // All of the tokens stand there.
    ghost invariant = { λ w. length (words_ahead w.left w.lexer) ≡ w.left };
}

impl<'a> Words<'a> {
    // The words of the next tokens, so many, which stand there.
    pub fn ahead(lexer: Lexer<'a>, count: usize) -> Words<'a>
        requires { length (words_ahead count lexer) ≡ count }
        ensures { result ≡ words_ahead count lexer.entry }
    {
        Words { lexer, left: count }
    }

    fn fork(&self) -> Words<'a>
        ensures { result ≡ self.now }
    {
        Words {
            lexer: self.lexer.fork(),
            left: self.left,
        }
    }

    pub fn is_empty(&self) -> bool
        ensures { result ≡ is_nil self.now }
    {
        self.left == 0
    }

    #[tactic(auto, unfolding(crate::specs::Takes::word_at, crate::specs::Ahead::words_ahead))]
    pub fn next(&mut self) -> Result<Token<'a>, ReadError>
        ensures answer { Answers (λ t. (word_of t, self.new)) result (word_at self.old) }
        ensures unknown { IfErr result (λ e. e ≡ ReadError.Unknown) }
    {
        if self.left == 0 {
            return Err(ReadError::Unknown);
        }
        match self.lexer.next() {
            Ok(Some(token)) => {
                self.left -= 1;
                Ok(token)
            }
            // Doesn't come: as many tokens stand there as are left.
            _ => Err(ReadError::Unknown),
        }
    }

    #[tactic(auto, unfolding(crate::specs::Takes::key_at))]
    pub fn key(&mut self, text: &[u8]) -> Result<(), ReadError>
        ensures { Answers (λ _. self.new) result (key_at text.now self.old) }
    {
        let token = self.next()?;
        if is_key(&token, text) {
            Ok(())
        } else {
            Err(ReadError::Unknown)
        }
    }

    #[tactic(auto, unfolding(crate::specs::Takes::mark_at))]
    pub fn mark(&mut self, b: u8) -> Result<(), ReadError>
        ensures { Answers (λ _. self.new) result (mark_at b self.old) }
    {
        let token = self.next()?;
        if is_mark(&token, b) {
            Ok(())
        } else {
            Err(ReadError::Unknown)
        }
    }

    // Takes the keyword if it stands next.
    #[tactic(auto, unfolding(crate::specs::Takes::key_at))]
    pub fn takes_key(&mut self, text: &[u8]) -> bool
        ensures { Takes (key_at text.now self.old) self.old self.new result }
    {
        let mut behind = self.fork();
        match behind.next() {
            Ok(token) if is_key(&token, text) => {
                *self = behind;
                true
            }
            _ => false,
        }
    }

    // Takes the mark if it stands next.
    #[tactic(auto, unfolding(crate::specs::Takes::mark_at))]
    pub fn takes_mark(&mut self, b: u8) -> bool
        ensures { Takes (mark_at b self.old) self.old self.new result }
    {
        let mut behind = self.fork();
        match behind.next() {
            Ok(token) if is_mark(&token, b) => {
                *self = behind;
                true
            }
            _ => false,
        }
    }
}

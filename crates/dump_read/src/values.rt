// The values that words write.

ghost use Rattle.std.specs.Prelude.{◌≡◌};
ghost use Rattle.fs_model.specs.PathText.{path_in};
ghost use Rattle.dump_grammar.specs.Spelling.{is_name_kind, word_of};
ghost use Rattle.dump_read.specs.Answer.{Answers};
ghost use Rattle.dump_read.specs.Takes.{named, name_in, number_in, string_in, path_of, location_in, hex_in, fixed_length, length_in, key_of, column_number_in, one};

use crate::error::ReadError;
use crate::words::{Words, is_key};
use catalog::is_name;
use dump_lex::{Token, TokenKind, bytes_of, name_of, number_of, string_of};
use fs_model::{Bytes, Path, PathError, Text};
use std::alloc::Global;

fn is_name_kind(kind: TokenKind) -> bool
    ensures { result ≡ is_name_kind kind }
{
    matches!(kind, TokenKind::Plain | TokenKind::Quoted)
}

fn named(bytes: Vec<u8>) -> Result<Text, ReadError>
    ensures { Answers (λ n. n) result (named bytes.items) }
{
    if is_name(&bytes) {
        Ok(Text::new(bytes))
    } else {
        Err(ReadError::Unknown)
    }
}

#[tactic(auto, unfolding(crate::specs::Takes::name_in))]
fn name_in(alloc: Global, token: &Token<'_>) -> Result<Text, ReadError>
    ensures { Answers (λ n. n) result (name_in (word_of token.now)) }
{
    if !is_name_kind(token.kind) {
        return Err(ReadError::Unknown);
    }
    named(name_of(alloc, token.kind, token.text)?)
}

#[tactic(auto, unfolding(crate::specs::Takes::number_in))]
fn number_in(token: &Token<'_>) -> Option<u32>
    ensures { result ≡ number_in (word_of token.now) }
{
    match token.kind {
        TokenKind::Number => number_of(token.text),
        _ => None,
    }
}

#[tactic(auto, unfolding(crate::specs::Takes::string_in))]
fn string_in(alloc: Global, token: &Token<'_>) -> Result<Vec<u8>, ReadError>
    ensures { Answers (λ v. v.items) result (string_in (word_of token.now)) }
{
    match token.kind {
        TokenKind::Str => Ok(string_of(alloc, token.text)?),
        _ => Err(ReadError::Unknown),
    }
}

#[tactic(auto, unfolding(crate::specs::Takes::hex_in))]
fn hex_in(alloc: Global, token: &Token<'_>) -> Result<Bytes, ReadError>
    ensures { Answers (λ b. b) result (hex_in (word_of token.now)) }
{
    match token.kind {
        TokenKind::Hex => Ok(Bytes::new(bytes_of(alloc, token.text)?)),
        _ => Err(ReadError::Unknown),
    }
}

fn parsed(alloc: Global, text: &str) -> Result<Path, ReadError>
    ensures { Answers (λ p. p) result (path_in text.now) }
{
    match Path::parse(alloc, text) {
        Ok(path) => Ok(path),
        Err(PathError::Bad) => Err(ReadError::Unknown),
        Err(PathError::OutOfMemory) => Err(ReadError::OutOfMemory),
    }
}

fn path_of(alloc: Global, bytes: &[u8]) -> Result<Path, ReadError>
    ensures { Answers (λ p. p) result (path_of bytes.now) }
{
    match str::from_utf8(bytes) {
        Ok(text) => parsed(alloc, text),
        Err(_) => Err(ReadError::Unknown),
    }
}

#[tactic(auto, unfolding(crate::specs::Takes::location_in))]
fn location_in(alloc: Global, token: &Token<'_>) -> Result<Path, ReadError>
    ensures { Answers (λ p. p) result (location_in (word_of token.now)) }
{
    let text = string_in(alloc, token)?;
    path_of(alloc, &text)
}

fn fixed_length(n: u32) -> Option<i16>
    ensures { result ≡ fixed_length n }
{
    if n <= 32767 { Some(n as i16) } else { None }
}

#[tactic(auto, unfolding(crate::specs::Takes::length_in))]
fn length_in(token: &Token<'_>) -> Option<i16>
    ensures { result ≡ length_in (word_of token.now) }
{
    if is_key(token, b"VAR") {
        return Some(-1);
    }
    fixed_length(number_in(token)?)
}

fn key_of(n: u32) -> Option<u16>
    ensures { result ≡ key_of n }
{
    if n <= 65535 { Some(n as u16) } else { None }
}

#[tactic(auto, unfolding(crate::specs::Takes::column_number_in))]
fn column_number_in(token: &Token<'_>) -> Option<u16>
    ensures { result ≡ column_number_in (word_of token.now) }
{
    key_of(number_in(token)?)
}

impl<'a> Words<'a> {
    #[tactic(auto, unfolding(crate::specs::Takes::one))]
    pub fn name(&mut self, alloc: Global) -> Result<Text, ReadError>
        ensures { Answers (λ n. (n, self.new)) result (one name_in self.old) }
    {
        let token = self.next()?;
        name_in(alloc, &token)
    }

    #[tactic(auto, unfolding(crate::specs::Takes::one))]
    pub fn number(&mut self) -> Result<u32, ReadError>
        ensures { Answers (λ n. (n, self.new)) result (one number_in self.old) }
    {
        let token = self.next()?;
        number_in(&token).ok_or(ReadError::Unknown)
    }

    #[tactic(auto, unfolding(crate::specs::Takes::one))]
    pub fn string(&mut self, alloc: Global) -> Result<Text, ReadError>
        ensures { Answers (λ n. (n, self.new)) result (one string_in self.old) }
    {
        let token = self.next()?;
        Ok(Text::new(string_in(alloc, &token)?))
    }

    #[tactic(auto, unfolding(crate::specs::Takes::one))]
    pub fn location(&mut self, alloc: Global) -> Result<Path, ReadError>
        ensures { Answers (λ p. (p, self.new)) result (one location_in self.old) }
    {
        let token = self.next()?;
        location_in(alloc, &token)
    }

    #[tactic(auto, unfolding(crate::specs::Takes::one))]
    pub fn hex(&mut self, alloc: Global) -> Result<Bytes, ReadError>
        ensures { Answers (λ b. (b, self.new)) result (one hex_in self.old) }
    {
        let token = self.next()?;
        hex_in(alloc, &token)
    }

    #[tactic(auto, unfolding(crate::specs::Takes::one))]
    pub fn dropped_length(&mut self) -> Result<i16, ReadError>
        ensures { Answers (λ n. (n, self.new)) result (one length_in self.old) }
    {
        let token = self.next()?;
        length_in(&token).ok_or(ReadError::Unknown)
    }

    #[tactic(auto, unfolding(crate::specs::Takes::one))]
    pub fn column_number(&mut self) -> Result<u16, ReadError>
        ensures { Answers (λ n. (n, self.new)) result (one column_number_in self.old) }
    {
        let token = self.next()?;
        column_number_in(&token).ok_or(ReadError::Unknown)
    }
}

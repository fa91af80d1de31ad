//! Text in delimiters, as `"a name"` and `'a string'`.

ghost use Rattle.std.specs.Prelude.{◌≡◌, ◌≤◌, length, option_map, IfOk, IfSome};
ghost use Rattle.dump_lex.specs.Enclosed.{closing, closed_of, enclosed_text, IsPart};

use crate::bytes::len_before;
use std::alloc::{AllocError, Global};

/// What was read behind an opening delimiter.
#[derive(Clone, Copy, Debug, PartialEq, Eq)]
pub struct Closed {
    /// The bytes of the text, two delimiters in a row counted as one.
    pub text_len: usize,
    /// The bytes that were read, with the closing delimiter.
    pub len: usize,
}

/// What stands at the next delimiter, and how many bytes stand before it.
#[derive(Clone, Copy, Debug)]
enum Part {
    /// There is none.
    End,
    /// It closes.
    Close(usize),
    /// It is the first of two, which stand for one.
    Pair(usize),
}

fn part_of(bytes: &[u8], delimiter: u8) -> Part
    ensures { IsPart delimiter bytes.now result }
{
    let n = len_before(bytes, delimiter);
    let (_, rest) = bytes.split_at(n);
    match rest {
        [] => Part::End,
        [_, second, ..] if *second == delimiter => Part::Pair(n),
        _ => Part::Close(n),
    }
}

/// Reads behind an opening delimiter up to the closing one. None where no delimiter closes.
pub fn closing(bytes: &[u8], delimiter: u8) -> Option<Closed>
    ensures exact { result ≡ option_map closed_of (closing delimiter bytes.now) }
    ensures within { IfSome result (λ c. c.len ≤ length bytes.now) }
{
    let mut rest = bytes;
    let mut text_len: usize = 0;
    let mut len: usize = 0;
    'parts: loop {
        match part_of(rest, delimiter) {
            Part::End => return None,
            Part::Close(n) => {
                return Some(Closed {
                    text_len: text_len + n,
                    len: len + n + 1,
                });
            }
            Part::Pair(n) => {
                let (_, tail) = rest.split_at(n + 2);
                rest = tail;
                text_len += n + 1;
                len += n + 2;
            }
        }
    }
}

/// The text that a closed token in delimiters stands for, each two delimiters in it read as one. Empty where
/// the token isn't closed.
pub fn enclosed_text(alloc: Global, token: &[u8], delimiter: u8) -> Result<Vec<u8>, AllocError>
    ensures { IfOk result (λ v. v.items ≡ enclosed_text delimiter token.now) }
{
    let mut text = Vec::new(alloc);
    let [_, inside @ ..] = token else {
        return Ok(text);
    };
    let mut rest = inside;
    'parts: loop {
        match part_of(rest, delimiter) {
            Part::End => {
                text.clear();
                return Ok(text);
            }
            Part::Close(n) => {
                let (last, _) = rest.split_at(n);
                text.extend_from_slice(last)?;
                return Ok(text);
            }
            Part::Pair(n) => {
                let (before, _) = rest.split_at(n);
                text.extend_from_slice(before)?;
                text.push(delimiter)?;
                let (_, tail) = rest.split_at(n + 2);
                rest = tail;
            }
        }
    }
}

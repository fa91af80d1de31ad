//! What the text of a token means.

ghost use Rattle.std.specs.Prelude.{◌≡◌, ◌≤◌, IfOk};
ghost use Rattle.dump_lex.specs.Value.{number_of, name_of, string_of, hex_digit_of, bytes_in, bytes_of};

use crate::enclosed::enclosed_text;
use crate::token::TokenKind;
use std::alloc::{AllocError, Global};

/// The largest number that 32 bits hold.
const LARGEST: u64 = 4294967295;

/// The number that decimal digits are. None where they have a leading zero or don't fit.
pub fn number_of(digits: &[u8]) -> Option<u32>
    ensures { result ≡ number_of digits.now }
{
    if let [b'0', _, ..] = digits {
        return None;
    }
    let mut rest = digits;
    let mut n: u64 = 0;
    while let [d, tail @ ..] = rest {
        n = 10 * n + u64::from(d.saturating_sub(b'0'));
        if n > LARGEST {
            return None;
        }
        rest = tail;
    }
    Some(n as u32)
}

/// The name that a plain word or a quoted name is, from the kind and the text of its token.
pub fn name_of(alloc: Global, kind: TokenKind, token: &[u8]) -> Result<Vec<u8>, AllocError>
    ensures { IfOk result (λ v. v.items ≡ name_of kind token.now) }
{
    match kind {
        TokenKind::Quoted => enclosed_text(alloc, token, b'"'),
        _ => Vec::from_slice(alloc, token),
    }
}

/// The text that a string is, from the text of its token.
pub fn string_of(alloc: Global, token: &[u8]) -> Result<Vec<u8>, AllocError>
    ensures { IfOk result (λ v. v.items ≡ string_of token.now) }
{
    enclosed_text(alloc, token, b'\'')
}

/// The bytes that a hex is, from the text of its token.
pub fn bytes_of(alloc: Global, token: &[u8]) -> Result<Vec<u8>, AllocError>
    ensures { IfOk result (λ v. v.items ≡ bytes_of token.now) }
{
    let [_, _, digits @ .., _] = token else {
        return Ok(Vec::new(alloc));
    };
    bytes_in(alloc, digits)
}

fn bytes_in(alloc: Global, digits: &[u8]) -> Result<Vec<u8>, AllocError>
    ensures { IfOk result (λ v. v.items ≡ bytes_in digits.now) }
{
    let mut bytes = Vec::new(alloc);
    let mut rest = digits;
    while let [high, low, tail @ ..] = rest {
        bytes.push(16 * hex_digit_of(*high) + hex_digit_of(*low))?;
        rest = tail;
    }
    Ok(bytes)
}

fn hex_digit_of(digit: u8) -> u8
    ensures value { result ≡ hex_digit_of digit }
    ensures small { result ≤ 15 }
{
    match digit {
        b'0'..=b'9' => digit - b'0',
        b'a'..=b'f' => digit - b'a' + 10,
        _ => 0,
    }
}

//! The token at the front of bytes.

ghost use Rattle.std.specs.Prelude.{◌≡◌, ◌+◌, ◌&&◌, nat_lt, nat_le, ◌<◌, ◌≤◌, length, IfOk};
ghost use Rattle.std.specs.List.{list_all};
ghost use Rattle.dump_lex.specs.Bytes.{in_class};
ghost use Rattle.dump_lex.specs.Enclosed.{closing};
ghost use Rattle.dump_lex.specs.Value.{is_hex, number_of};
ghost use Rattle.dump_lex.specs.Front.{plain_token, hex_token, letter_token, digit_token, number_token, quoted_token, string_token, front};

use crate::bytes::{Class, Lead, in_class, lead_of, len_before, run_len};
use crate::enclosed::closing;
use crate::token::{LexKind, TokenKind};
use crate::value::number_of;

fn plain_token(n: usize) -> Result<(TokenKind, usize), LexKind>
    ensures { result ≡ plain_token n }
{
    if n <= 63 {
        Ok((TokenKind::Plain, n))
    } else {
        Err(LexKind::BadName)
    }
}

fn are_hex_digits(bytes: &[u8]) -> bool
    ensures { result ≡ list_all (in_class Class.HexDigit) bytes.now }
{
    bytes.iter().all(|b| in_class(Class::HexDigit, *b))
}

/// Whether bytes are an even number of digits `0` to `9` and `a` to `f`.
fn is_hex(digits: &[u8]) -> bool
    ensures { result ≡ is_hex digits.now }
{
    let are_digits = are_hex_digits(digits);
    digits.len() % 2 == 0 && are_digits
}

/// The hex behind `x'`.
fn hex_token(inside: &[u8]) -> Result<(TokenKind, usize), LexKind>
    ensures { result ≡ hex_token inside.now }
{
    let n = len_before(inside, b'\'');
    if n == inside.len() {
        return Err(LexKind::Unclosed);
    }
    let (digits, _) = inside.split_at(n);
    if is_hex(digits) {
        Ok((TokenKind::Hex, n + 3))
    } else {
        Err(LexKind::BadHex)
    }
}

/// A plain word or a hex: `x'` always begins a hex.
fn letter_token(bytes: &[u8]) -> Result<(TokenKind, usize), LexKind>
    ensures { result ≡ letter_token bytes.now }
{
    match bytes {
        [b'x', b'\'', inside @ ..] => hex_token(inside),
        _ => plain_token(run_len(bytes, Class::Word)),
    }
}

fn number_token(found: Option<u32>, n: usize) -> Result<(TokenKind, usize), LexKind>
    ensures { result ≡ number_token found n }
{
    match found {
        Some(_) => Ok((TokenKind::Number, n)),
        None => Err(LexKind::BadNumber),
    }
}

fn digit_token(bytes: &[u8]) -> Result<(TokenKind, usize), LexKind>
    ensures { result ≡ digit_token bytes.now }
{
    let n = run_len(bytes, Class::Digit);
    let (digits, _) = bytes.split_at(n);
    number_token(number_of(digits), n)
}

fn has_no_zero(bytes: &[u8]) -> bool
    ensures { result ≡ list_all (λ b. nat_lt 0 b) bytes.now }
{
    bytes.iter().all(|b| 0 < *b)
}

/// Whether a name of this many bytes, which are written so, is one.
fn is_name(len: usize, written: &[u8]) -> bool
    ensures { result ≡ (nat_lt 0 len && nat_le len 63 && list_all (λ b. nat_lt 0 b) written.now) }
{
    let is_whole = has_no_zero(written);
    0 < len && len <= 63 && is_whole
}

/// The quoted name behind `"`.
fn quoted_token(inside: &[u8]) -> Result<(TokenKind, usize), LexKind>
    ensures { result ≡ quoted_token (closing 34 inside.now) }
{
    match closing(inside, b'"') {
        None => Err(LexKind::Unclosed),
        Some(closed) => {
            let (written, _) = inside.split_at(closed.len);
            if is_name(closed.text_len, written) {
                Ok((TokenKind::Quoted, closed.len + 1))
            } else {
                Err(LexKind::BadName)
            }
        }
    }
}

/// The string behind `'`.
fn string_token(inside: &[u8]) -> Result<(TokenKind, usize), LexKind>
    ensures { result ≡ string_token (closing 39 inside.now) }
{
    match closing(inside, b'\'') {
        None => Err(LexKind::Unclosed),
        Some(closed) => Ok((TokenKind::Str, closed.len + 1)),
    }
}

/// The kind of the token at the front, and how many bytes it has; or why there is none.
#[tactic(auto, unfolding(crate::specs::Front::front))]
pub fn front(bytes: &[u8]) -> Result<(TokenKind, usize), LexKind>
    ensures exact { result ≡ front bytes.now }
    ensures within { IfOk result (λ x. (0 < x.1) × (x.1 ≤ length bytes.now)) }
{
    let [first, inside @ ..] = bytes else {
        return Err(LexKind::BadByte);
    };
    match lead_of(*first) {
        Lead::Capital => Ok((TokenKind::Keyword, run_len(bytes, Class::Upper))),
        Lead::Letter => letter_token(bytes),
        Lead::Digit => digit_token(bytes),
        Lead::Quote => quoted_token(inside),
        Lead::Apostrophe => string_token(inside),
        Lead::Mark => Ok((TokenKind::Mark, 1)),
        Lead::Other => Err(LexKind::BadByte),
    }
}

//! Bytes by what they can stand in, and runs of them.

ghost use Rattle.std.specs.Prelude.{◌≡◌, ◌≤◌, false, length, nat_eq, not, count_by};
ghost use Rattle.std.specs.List.{prefix_len, position_or_len};
ghost use Rattle.dump_lex.specs.Bytes.{in_class, lead_of, is_newline, starts_comment, IsSeparatorLen, blanks};

use bstr::ByteSlice;

/// Bytes that a token has a run of.
#[derive(Clone, Copy, Debug, PartialEq, Eq)]
pub enum Class {
    Upper,
    Word,
    Digit,
    HexDigit,
}

pub fn in_class(class: Class, b: u8) -> bool
    ensures { result ≡ in_class class b }
{
    match class {
        Class::Upper => b >= b'A' && b <= b'Z',
        Class::Word => (b >= b'a' && b <= b'z') || b == b'_' || (b >= b'0' && b <= b'9'),
        Class::Digit => b >= b'0' && b <= b'9',
        Class::HexDigit => (b >= b'0' && b <= b'9') || (b >= b'a' && b <= b'f'),
    }
}

/// What a token's first byte says of it.
#[derive(Clone, Copy, Debug, PartialEq, Eq)]
pub enum Lead {
    /// A keyword.
    Capital,
    /// A plain word or a hex.
    Letter,
    /// A number.
    Digit,
    /// A quoted name.
    Quote,
    /// A string.
    Apostrophe,
    /// A mark.
    Mark,
    /// No token begins with the byte.
    Other,
}

pub fn lead_of(b: u8) -> Lead
    ensures { result ≡ lead_of b }
{
    if b >= b'A' && b <= b'Z' {
        Lead::Capital
    } else if (b >= b'a' && b <= b'z') || b == b'_' {
        Lead::Letter
    } else if b >= b'0' && b <= b'9' {
        Lead::Digit
    } else if b == b'"' {
        Lead::Quote
    } else if b == b'\'' {
        Lead::Apostrophe
    } else if b == b'(' || b == b')' || b == b',' || b == b';' || b == b'.' {
        Lead::Mark
    } else {
        Lead::Other
    }
}

/// How many bytes at the front are of the class.
pub fn run_len(bytes: &[u8], class: Class) -> usize
    ensures run { result ≡ prefix_len (in_class class) bytes.now }
    ensures within { result ≤ length bytes.now }
{
    let mut rest = bytes;
    let mut n = 0;
    while let [b, tail @ ..] = rest {
        if !in_class(class, *b) {
            return n;
        }
        n += 1;
        rest = tail;
    }
    n
}

/// How many bytes stand before the first `byte`: all of them where there is none.
pub fn len_before(bytes: &[u8], byte: u8) -> usize
    ensures first { result ≡ position_or_len (λ b. nat_eq b byte) bytes.now }
    ensures within { result ≤ length bytes.now }
{
    bytes.find_byte(byte).unwrap_or(bytes.len())
}

/// How many bytes the separator at the front has, if one stands there: a space, a newline, or a comment up
/// to the end of its line.
fn separator_len(bytes: &[u8]) -> Option<usize>
    ensures { IsSeparatorLen bytes.now result }
{
    if starts_comment(bytes) {
        return Some(len_before(bytes, b'\n'));
    }
    match bytes {
        [b' ' | b'\n', ..] => Some(1),
        _ => None,
    }
}

fn starts_comment(bytes: &[u8]) -> bool
    ensures { result ≡ starts_comment bytes.now }
{
    match bytes {
        [b'-', b'-', ..] => true,
        _ => false,
    }
}

/// How many bytes at the front separate tokens.
pub fn blank_len(bytes: &[u8]) -> usize
    ensures blank { result ≡ blanks false bytes.now }
    ensures within { result ≤ length bytes.now }
{
    let mut rest = bytes;
    let mut n = 0;
    while let Some(len) = separator_len(rest) {
        let (_, tail) = rest.split_at(len);
        n += len;
        rest = tail;
    }
    n
}

/// How many lines end in the bytes.
pub fn newlines(bytes: &[u8]) -> usize
    ensures count { result ≡ count_by is_newline bytes.now }
    ensures within { result ≤ length bytes.now }
{
    bytes.iter().filter(|b| **b == b'\n').count()
}

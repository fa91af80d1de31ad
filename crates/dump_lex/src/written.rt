//! Values as the grammar writes them, at the end of a vector.

ghost use Rattle.std.specs.Prelude.{◌≡◌, ◌<◌, ◌++◌, OnOk};
ghost use Rattle.std.specs.List.{list_all};
ghost use Rattle.dump_lex.specs.Bytes.{in_class, is_lower};
ghost use Rattle.dump_lex.specs.Enclosed.{doubled_byte, doubled, enclosed};
ghost use Rattle.dump_lex.specs.Grammar.{hex_text};
ghost use Rattle.dump_lex.specs.Written.{is_word, name_text, hex_digit, hex_of};

use crate::bytes::{Class, in_class};
use std::alloc::AllocError;

/// Whether a name can be written as a plain word: `a` to `z`, `0` to `9` and `_`, with no digit first.
pub fn is_word(name: &[u8]) -> bool
    ensures { result ≡ is_word name.now }
{
    match name {
        [first, ..] => begins_word(*first) && are_word_bytes(name),
        [] => false,
    }
}

fn begins_word(b: u8) -> bool
    ensures { result ≡ is_lower b }
{
    (b >= b'a' && b <= b'z') || b == b'_'
}

fn are_word_bytes(bytes: &[u8]) -> bool
    ensures { result ≡ list_all (in_class Class.Word) bytes.now }
{
    bytes.iter().all(|b| in_class(Class::Word, *b))
}

/// Writes a name: as a plain word where it is one, else in `"`.
pub fn put_name(out: &mut Vec<u8>, name: &[u8]) -> Result<(), AllocError>
    ensures { OnOk result (out.new.items ≡ out.old.items ++ name_text name.now) }
{
    if is_word(name) {
        out.extend_from_slice(name)
    } else {
        put_enclosed(out, name, b'"')
    }
}

/// Writes a text as a string.
pub fn put_string(out: &mut Vec<u8>, text: &[u8]) -> Result<(), AllocError>
    ensures { OnOk result (out.new.items ≡ out.old.items ++ enclosed 39 text.now) }
{
    put_enclosed(out, text, b'\'')
}

fn put_enclosed(out: &mut Vec<u8>, text: &[u8], delimiter: u8) -> Result<(), AllocError>
    ensures { OnOk result (out.new.items ≡ out.old.items ++ enclosed delimiter text.now) }
{
    out.push(delimiter)?;
    put_doubled(out, text, delimiter)?;
    out.push(delimiter)?;
    Ok(())
}

fn put_doubled(out: &mut Vec<u8>, text: &[u8], delimiter: u8) -> Result<(), AllocError>
    ensures { OnOk result (out.new.items ≡ out.old.items ++ doubled delimiter text.now) }
{
    let mut rest = text;
    while let [b, tail @ ..] = rest {
        put_byte(out, *b, delimiter)?;
        rest = tail;
    }
    Ok(())
}

fn put_byte(out: &mut Vec<u8>, b: u8, delimiter: u8) -> Result<(), AllocError>
    ensures { OnOk result (out.new.items ≡ out.old.items ++ doubled_byte delimiter b) }
{
    if b == delimiter {
        out.extend_from_slice(&[b, b])
    } else {
        out.extend_from_slice(&[b])
    }
}

/// Writes bytes as a hex.
pub fn put_hex(out: &mut Vec<u8>, bytes: &[u8]) -> Result<(), AllocError>
    ensures { OnOk result (out.new.items ≡ out.old.items ++ hex_text (hex_of bytes.now)) }
{
    out.extend_from_slice(b"x'")?;
    put_digits(out, bytes)?;
    out.push(b'\'')?;
    Ok(())
}

fn put_digits(out: &mut Vec<u8>, bytes: &[u8]) -> Result<(), AllocError>
    ensures { OnOk result (out.new.items ≡ out.old.items ++ hex_of bytes.now) }
{
    let mut rest = bytes;
    while let [b, tail @ ..] = rest {
        out.extend_from_slice(&[hex_digit(*b / 16), hex_digit(*b % 16)])?;
        rest = tail;
    }
    Ok(())
}

fn hex_digit(n: u8) -> u8
    requires { n < 16 }
    ensures { result ≡ hex_digit n }
{
    if n < 10 { b'0' + n } else { b'a' - 10 + n }
}

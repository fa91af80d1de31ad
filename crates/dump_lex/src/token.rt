//! Tokens, and why there is none.

use thiserror::Error;

/// The kinds of token.
#[derive(Clone, Copy, Debug, PartialEq, Eq)]
pub enum TokenKind {
    /// `A` to `Z`, once or more.
    Keyword,
    /// A name of `a` to `z`, `0` to `9` and `_` that doesn't begin with a digit, of 1 to 63 bytes.
    Plain,
    /// A name in `"`, with `""` for one `"`, of 1 to 63 bytes and without a zero byte.
    Quoted,
    /// Bytes in `'`, with `''` for one `'`.
    Str,
    /// `x'`, an even number of the digits `0` to `9` and `a` to `f`, and `'`.
    Hex,
    /// `0`, or digits without a leading zero, at most 4294967295.
    Number,
    /// One of `(`, `)`, `,`, `;` and `.`.
    Mark,
}

/// A token, borrowed from the text that it stands in.
#[derive(Clone, Copy, Debug)]
pub struct Token<'a> {
    pub kind: TokenKind,
    /// The token as it is written, with its delimiters: the text's slice at `start`.
    pub text: &'a [u8],
    /// How many bytes of the text stand before the token.
    pub start: usize,
    /// The line of the token's first byte, from 1.
    pub line: u64,
}

/// Why no token stands where one should.
#[derive(Clone, Copy, Debug, PartialEq, Eq, Error)]
pub enum LexKind {
    /// No token begins with the byte.
    #[error("no token begins with this byte")]
    BadByte,
    /// An opening `"`, `'` or `x'` has no closing mark.
    #[error("a quote isn't closed")]
    Unclosed,
    /// A run of digits is no number.
    #[error("no number")]
    BadNumber,
    /// Between `x'` and the next `'` stand other than pairs of digits.
    #[error("no pairs of hex digits")]
    BadHex,
    /// A plain word is longer than 63 bytes, or a closed quoted name is empty, longer than 63 bytes or has a
    /// zero byte.
    #[error("no name")]
    BadName,
}

/// Why there is no token, with the line of the byte at which one should begin, from 1.
#[derive(Clone, Copy, Debug, PartialEq, Eq, Error)]
#[error("line {line}: {kind}")]
pub struct LexError {
    pub line: u64,
    pub kind: LexKind,
}

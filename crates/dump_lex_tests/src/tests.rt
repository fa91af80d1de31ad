use dump_lex::{
    LexError, LexKind, Lexer, TokenKind, blanks_separate, bytes_of, error_holds, failing_is_told,
    found_stands, is_word, name_of, number_of, parsed_is_read, put_hex, put_name, put_string,
    reading_is_one, reading_parses, separated_is_blank, standing_is_found, string_of, text_is_read,
    values_are_read,
};
use std::alloc::{AllocError, Global};
use std::test::Fail;

// A plain word of 64 bytes, one too many.
const TOO_LONG: &[u8] = b"abcdefghijklmnopqrstuvwxyz_abcdefghijklmnopqrstuvwxyz_0123456789";

// The same without its last byte.
const LONGEST: &[u8] = b"abcdefghijklmnopqrstuvwxyz_abcdefghijklmnopqrstuvwxyz_012345678";

// The first token of each text, as it is written.
static TOKENS: [(&[u8], TokenKind, &[u8]); 30] = [
    (b"CREATE ROLE a;", TokenKind::Keyword, b"CREATE"),
    (b"Ab", TokenKind::Keyword, b"A"),
    (
        b"ABCDEFGHIJKLMNOPQRSTUVWXYZABCDEFGHIJKLMNOPQRSTUVWXYZABCDEFGHIJKL",
        TokenKind::Keyword,
        b"ABCDEFGHIJKLMNOPQRSTUVWXYZABCDEFGHIJKLMNOPQRSTUVWXYZABCDEFGHIJKL",
    ),
    (b"pg_default", TokenKind::Plain, b"pg_default"),
    (b"_9z-- c", TokenKind::Plain, b"_9z"),
    (b"aB", TokenKind::Plain, b"a"),
    (b"x", TokenKind::Plain, b"x"),
    (b"x \'00\'", TokenKind::Plain, b"x"),
    (b"x1\'", TokenKind::Plain, b"x1"),
    (b"ax\'00\'", TokenKind::Plain, b"ax"),
    (LONGEST, TokenKind::Plain, LONGEST),
    (b"\"a\"", TokenKind::Quoted, b"\"a\""),
    (b"\"\"\"\"", TokenKind::Quoted, b"\"\"\"\""),
    (b"\"a\"\"b\"c", TokenKind::Quoted, b"\"a\"\"b\""),
    (
        b"\"\t\n\xc3\xa9\'\";",
        TokenKind::Quoted,
        b"\"\t\n\xc3\xa9\'\"",
    ),
    (
        b"\"\"\"abcdefghijklmnopqrstuvwxyzabcdefghijklmnopqrstuvwxyz0123456789\"",
        TokenKind::Quoted,
        b"\"\"\"abcdefghijklmnopqrstuvwxyzabcdefghijklmnopqrstuvwxyz0123456789\"",
    ),
    (b"\'\'", TokenKind::Str, b"\'\'"),
    (b"\'it\'\'s\' \'", TokenKind::Str, b"\'it\'\'s\'"),
    (b"\'\0\xff\n--\"\'", TokenKind::Str, b"\'\0\xff\n--\"\'"),
    (b"x\'\'", TokenKind::Hex, b"x\'\'"),
    (b"x\'00ff\'\'", TokenKind::Hex, b"x\'00ff\'"),
    (b"0", TokenKind::Number, b"0"),
    (b"0;", TokenKind::Number, b"0"),
    (b"4294967295", TokenKind::Number, b"4294967295"),
    (b"16384a", TokenKind::Number, b"16384"),
    (b"((", TokenKind::Mark, b"("),
    (b")", TokenKind::Mark, b")"),
    (b", ", TokenKind::Mark, b","),
    (b" \n-- it\'s a \"comment\n \n;;", TokenKind::Mark, b";"),
    (b".5", TokenKind::Mark, b"."),
];

fn begins(text: &[u8], kind: TokenKind, token: &[u8]) -> bool {
    match Lexer::over(text).next() {
        Ok(Some(found)) => found.kind == kind && found.text == token,
        _ => false,
    }
}

#[test]
fn first_tokens(rt: HostRuntime) {
    for (text, kind, token) in &TOKENS {
        assert!(rt; begins(text, *kind, token), "{token:?}");
    }
}

// The first error in each text, with its line.
static ERRORS: [(&[u8], u64, LexKind); 26] = [
    (b"a\n-", 2, LexKind::BadByte),
    (b"- -", 1, LexKind::BadByte),
    (b"\ta", 1, LexKind::BadByte),
    (b"a\r\n", 1, LexKind::BadByte),
    (b"-- a\n\0", 2, LexKind::BadByte),
    (b"\n\n\x80", 3, LexKind::BadByte),
    (b"a:b", 1, LexKind::BadByte),
    (b"X\'00\' +", 1, LexKind::BadByte),
    (b"\"", 1, LexKind::Unclosed),
    (b"; \"a\n\n", 1, LexKind::Unclosed),
    (b"\"a\"\"", 1, LexKind::Unclosed),
    (b"\n\'", 2, LexKind::Unclosed),
    (b"\'\'\'", 1, LexKind::Unclosed),
    (b"x\'", 1, LexKind::Unclosed),
    (b"\'\n\' x\'0\n0", 2, LexKind::Unclosed),
    (b"4294967296", 1, LexKind::BadNumber),
    (b"007", 1, LexKind::BadNumber),
    (b"00", 1, LexKind::BadNumber),
    (b"99999999999999999999999999", 1, LexKind::BadNumber),
    (b"x\'0\'", 1, LexKind::BadHex),
    (b"x\'0g\'", 1, LexKind::BadHex),
    (b"x\'AB\'", 1, LexKind::BadHex),
    (TOO_LONG, 1, LexKind::BadName),
    (b"\"a\n\"\n\"\"", 3, LexKind::BadName),
    (b"\"a\0b\"", 1, LexKind::BadName),
    (
        b"\"\"\"abcdefghijklmnopqrstuvwxyzabcdefghijklmnopqrstuvwxyz01234567890\"",
        1,
        LexKind::BadName,
    ),
];

fn fails(text: &[u8], line: u64, kind: LexKind) -> bool {
    let mut lexer = Lexer::over(text);
    let mut is_told = false;
    for _ in 0..=text.len() {
        if let Err(error) = lexer.next() {
            is_told = error == LexError { line, kind };
        }
    }
    is_told
}

#[test]
fn first_errors(rt: HostRuntime) {
    for (text, line, kind) in &ERRORS {
        assert!(rt; fails(text, *line, *kind), "{text:?}");
    }
}

// Texts without a token.
static ENDS: [&[u8]; 5] = [b"", b" \n ", b"--", b"-- \"", b"--\n--\n"];

fn ends(text: &[u8]) -> bool {
    matches!(Lexer::over(text).next(), Ok(None))
}

#[test]
fn no_tokens(rt: HostRuntime) {
    for text in &ENDS {
        assert!(rt; ends(text), "{text:?}");
    }
}

// Each law may be cited.
#[test]
fn laws() {
    found_stands();
    standing_is_found();
    error_holds();
    failing_is_told();
    blanks_separate();
    separated_is_blank();
    text_is_read();
    reading_is_one();
    reading_parses();
    parsed_is_read();
    values_are_read();
}

// ---- what tokens mean

fn is_name(alloc: Global, kind: TokenKind, text: &[u8], name: &[u8]) -> Result<bool, AllocError> {
    Ok(name_of(alloc, kind, text)?.as_slice() == name)
}

fn is_string(alloc: Global, text: &[u8], string: &[u8]) -> Result<bool, AllocError> {
    Ok(string_of(alloc, text)?.as_slice() == string)
}

fn are_bytes(alloc: Global, text: &[u8], bytes: &[u8]) -> Result<bool, AllocError> {
    Ok(bytes_of(alloc, text)?.as_slice() == bytes)
}

#[test]
fn values(rt: HostRuntime) -> Result<(), Fail> {
    let alloc = rt.alloc();
    assert!(rt; number_of(b"1663") == Some(1663));
    assert!(rt; is_name(alloc, TokenKind::Plain, b"pg_default", b"pg_default")?);
    assert!(rt; is_name(alloc, TokenKind::Quoted, b"\"a\"\"b\"\"\"", b"a\"b\"")?);
    assert!(rt; is_string(alloc, b"\'it\'\'s\'", b"it\'s")?);
    assert!(rt; are_bytes(alloc, b"x\'00ff7a\'", b"\0\xff\x7a")?);
    assert!(rt; is_word(b"pg_1") && !is_word(b"1a") && !is_word(b""));
    Ok(())
}

fn put_each(out: &mut Vec<u8>) -> Result<(), AllocError> {
    put_name(out, b"app")?;
    put_name(out, b"My \"app\"")?;
    put_string(out, b"it\'s")?;
    put_hex(out, b"\0\xff\x7a")
}

#[test]
fn written_values(rt: HostRuntime) -> Result<(), Fail> {
    let mut out = Vec::new(rt.alloc());
    put_each(&mut out)?;
    let written = b"app\"My \"\"app\"\"\"\'it\'\'s\'x\'00ff7a\'";
    assert!(rt; out.as_slice() == written.as_slice());
    Ok(())
}

// ---- a long text

// A text of more than a megabyte, with a string of half of it.
fn put_long(text: &mut Vec<u8>) -> Result<(), AllocError> {
    text.extend_from_slice(b"\'")?;
    for _ in 0..131072 {
        text.extend_from_slice(b"a\'\'\n")?;
    }
    text.extend_from_slice(b"\' ")?;
    for _ in 0..65536 {
        text.extend_from_slice(b"a1 -- \'\n")?;
    }
    Ok(())
}

// The line of the last of so many tokens, where nothing stands behind them.
fn last_line(text: &[u8], count: u32) -> Option<u64> {
    let mut lexer = Lexer::over(text);
    let mut last_line = 0;
    for _ in 0..count {
        if let Ok(Some(token)) = lexer.next() {
            last_line = token.line;
        }
    }
    match lexer.next() {
        Ok(None) => Some(last_line),
        _ => None,
    }
}

#[test]
fn reads_a_long_text(rt: HostRuntime) -> Result<(), Fail> {
    let mut text = Vec::new(rt.alloc());
    put_long(&mut text)?;
    assert!(rt; last_line(&text, 65537) == Some(196608));
    Ok(())
}

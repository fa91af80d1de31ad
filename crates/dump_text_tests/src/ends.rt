// How a text ends that is taken in one of the ways.
use crate::found::push_found;
use catalog::Catalog;
use dump_lex::Lexer;
use dump_text::{Statement, TextError, load, print, read_statement, replay};
use std::alloc::{AllocError, Global};

fn push_error(said: &mut Vec<u8>, alloc: Global, error: TextError) -> Result<(), AllocError> {
    let line = error.line;
    let cause = error.cause;
    let text = format!(in alloc; "{line} {cause:?}")?;
    said.extend_from_slice(text.as_bytes())
}

// ---- replaying

// Replays a text, and says how the catalog compares with another one before and after.
fn replayed(
    alloc: Global,
    catalog: &mut Catalog,
    other: &Catalog,
    text: &[u8],
) -> Result<&'static str, TextError> {
    let before = catalog.same(other);
    let end = replay(alloc, catalog, text);
    match (before, catalog.same(other), end) {
        (true, true, Err(error)) => Err(error),
        (true, true, Ok(())) => Ok("ok"),
        (true, false, Ok(())) => Ok("changed"),
        (false, true, Ok(())) => Ok("caught up"),
        _ => Ok("neither"),
    }
}

fn over(alloc: Global, base: &[u8], other: &[u8], text: &[u8]) -> Result<&'static str, TextError> {
    replayed(alloc, &mut load(alloc, base)?, &load(alloc, other)?, text)
}

fn push_over(
    said: &mut Vec<u8>,
    alloc: Global,
    base: &[u8],
    other: &[u8],
    text: &[u8],
) -> Result<(), TextError> {
    let end = over(alloc, base, other, text)?;
    Ok(said.extend_from_slice(end.as_bytes())?)
}

fn push_replayed(
    said: &mut Vec<u8>,
    alloc: Global,
    catalog: &mut Catalog,
    text: &[u8],
) -> Result<(), AllocError> {
    match replay(alloc, catalog, text) {
        Ok(()) => said.extend_from_slice(b"ok\n"),
        Err(error) => {
            push_error(said, alloc, error)?;
            said.extend_from_slice(b"\n")
        }
    }
}

fn push_canonical(said: &mut Vec<u8>, alloc: Global, catalog: &Catalog) -> Result<(), TextError> {
    let text = print(alloc, catalog)?;
    Ok(said.extend_from_slice(&text)?)
}

// The ends of texts with `%` between them, replayed in turn, and the canonical text of what they made.
fn push_made(
    said: &mut Vec<u8>,
    alloc: Global,
    catalog: &mut Catalog,
    texts: &[u8],
) -> Result<(), TextError> {
    for text in texts.split(|b| *b == b'%') {
        push_replayed(said, alloc, catalog, text)?;
    }
    push_canonical(said, alloc, catalog)
}

// ---- reading

fn push_role(said: &mut Vec<u8>, statement: &Statement) -> Result<(), AllocError> {
    if let Statement::Bootstrap(role) = statement {
        said.extend_from_slice(role.bytes())?;
    }
    said.extend_from_slice(b";")
}

fn push_next(said: &mut Vec<u8>, alloc: Global, lexer: &mut Lexer<'_>) -> Result<(), TextError> {
    match read_statement(alloc, lexer)? {
        Some(statement) => Ok(push_role(said, &statement)?),
        None => Ok(()),
    }
}

// A `;` for each statement, and before that of a `BOOTSTRAP` its role.
fn push_statements(said: &mut Vec<u8>, alloc: Global, text: &[u8]) -> Result<(), TextError> {
    let mut lexer = Lexer::over(text);
    for _ in 0..text.len() {
        push_next(said, alloc, &mut lexer)?;
    }
    Ok(())
}

// ---- a way

// The text of the catalog that a cluster of the role `postgres` starts with.
static START: &[u8] = b"BOOTSTRAP postgres;";

fn push_end(
    said: &mut Vec<u8>,
    alloc: Global,
    base: &[u8],
    way: &str,
    text: &[u8],
) -> Result<(), TextError> {
    match way {
        "@replay" => push_over(said, alloc, base, base, text),
        "@catch_up" => push_over(said, alloc, START, base, text),
        "@same" => push_over(said, alloc, text, base, b""),
        "@made" => push_made(said, alloc, &mut load(alloc, base)?, text),
        "@print" => push_canonical(said, alloc, &load(alloc, text)?),
        "@find" => Ok(push_found(said, alloc, &load(alloc, base)?, text)?),
        "@read" => push_statements(said, alloc, text),
        _ => Ok(said.extend_from_slice(b"no such way")?),
    }
}

/// How the text ends over a catalog: its answer, or the line and the cause of the error.
pub(crate) fn end_of(
    alloc: Global,
    base: &[u8],
    way: &str,
    text: &[u8],
) -> Result<Vec<u8>, AllocError> {
    let mut said = Vec::new(alloc);
    match push_end(&mut said, alloc, base, way, text) {
        Ok(()) => Ok(said),
        Err(error) => {
            push_error(&mut said, alloc, error)?;
            Ok(said)
        }
    }
}

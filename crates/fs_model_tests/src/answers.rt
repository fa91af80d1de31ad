// What each call gives, as text. Each function owns at most one value that is dropped, so that it is cheap to prove.
use crate::kept::{change, error_text, keeps_bytes, keeps_text, no_change, target};
use fs_model::{Name, Path, PathError};
use std::alloc::{AllocError, Global};
use std::cmp::Ordering;

// ---- the calls

fn path(alloc: Global, text: &str) -> Result<Path, PathError> {
    Path::parse(alloc, text)
}

fn name(alloc: Global, text: &str) -> Result<Name, PathError> {
    Name::new(alloc, text)
}

fn text(path: &Path) -> Result<String, PathError> {
    Ok(path.text()?)
}

fn name_text(alloc: Global, name: &Name) -> Result<String, PathError> {
    Ok(String::from_str(alloc, name.text())?)
}

fn clone_of(name: &Name) -> Result<Name, PathError> {
    Ok(name.clone()?)
}

fn names(alloc: Global, path: &Path) -> Result<String, PathError> {
    let mut said = String::new(alloc);
    for name in path.names() {
        said.push_str("[")?;
        said.push_str(name.text())?;
        said.push_str("]")?;
    }
    Ok(said)
}

// ---- paths from a path

// What a call makes. An unknown call has an answer that no line expects.
fn made(path: &Path, call: &str) -> Result<Path, PathError> {
    match call {
        "copy" => path.copy(),
        "clone" => Ok(path.clone()?),
        "parent" => Ok(path.parent()?),
        "join none" => path.join(&[]),
        _ => Err(PathError::OutOfMemory),
    }
}

fn child(path: &Path, name: &Name) -> Result<Path, PathError> {
    path.child(name)
}

fn join(path: &Path, name: &str, other: &str) -> Result<Path, PathError> {
    path.join(&[name, other])
}

// ---- a path and another

fn order_text(order: Option<Ordering>) -> &'static str {
    match order {
        Some(Ordering::Less) => "less",
        Some(Ordering::Equal) => "equal",
        Some(Ordering::Greater) => "greater",
        None => "none",
    }
}

fn yes(holds: bool) -> &'static str {
    if holds { "yes" } else { "no" }
}

fn compared(path: &Path, call: &str, other: &Path) -> &'static str {
    match call {
        "under" => yes(path.is_under(other)),
        "in" => yes(path.is_in(other)),
        "same" => yes(path == other),
        "order" => order_text(Some(path.cmp(other))),
        "partial" => order_text(path.partial_cmp(other)),
        _ => "no such call",
    }
}

fn names_compared(name: &Name, call: &str, other: &Name) -> &'static str {
    match call {
        "name order" => order_text(Some(name.cmp(other))),
        "same name" => yes(name == other),
        _ => "no such call",
    }
}

// ---- a line

// A call with one word.
fn of_one(alloc: Global, call: &str, word: &str) -> Result<String, PathError> {
    match call {
        "name" => name_text(alloc, &clone_of(&name(alloc, word)?)?),
        "path" => text(&path(alloc, word)?),
        "names" => names(alloc, &path(alloc, word)?),
        "error" => Ok(error_text(alloc, word)?),
        "change in" => word_of(alloc, yes(change_is_in(alloc, word)?)),
        "no change in" => word_of(alloc, yes(no_change(alloc).is_in(&path(alloc, word)?))),
        _ => text(&made(&path(alloc, word)?, call)?),
    }
}

fn word_of(alloc: Global, said: &str) -> Result<String, PathError> {
    Ok(String::from_str(alloc, said)?)
}

// A call with two words.
fn of_two(alloc: Global, call: &str, word: &str, other: &str) -> Result<String, PathError> {
    match call {
        "target" => target_of(alloc, word, other),
        "child" => text(&child(&path(alloc, word)?, &name(alloc, other)?)?),
        "name order" | "same name" => {
            word_of(
                alloc,
                names_compared(&name(alloc, word)?, call, &name(alloc, other)?),
            )
        }
        _ => word_of(
            alloc,
            compared(&path(alloc, word)?, call, &path(alloc, other)?),
        ),
    }
}

// The join with two names.
fn of_three(alloc: Global, word: &str, name: &str, other: &str) -> Result<String, PathError> {
    text(&join(&path(alloc, word)?, name, other)?)
}

// The change of the name `/a/c` to a link to `/b`: whether it is in a directory.
fn change_is_in(alloc: Global, dir: &str) -> Result<bool, PathError> {
    let change = change(alloc, path(alloc, "/a/c")?, path(alloc, "/b")?)?;
    Ok(change.is_in(&path(alloc, dir)?))
}

fn target_of(alloc: Global, name: &str, to: &str) -> Result<String, PathError> {
    Ok(target(alloc, &change(alloc, path(alloc, name)?, path(alloc, to)?)?)?)
}

// A call with no word.
fn of_none(alloc: Global, call: &str) -> Result<String, PathError> {
    match call {
        "root" => text(&Path::root(alloc)),
        "name with a zero" => name_text(alloc, &name(alloc, "a\0b")?),
        "path with a zero" => text(&path(alloc, "/a\0")?),
        "text" => word_of(alloc, yes(keeps_text(alloc, b"pub\xfflic")?)),
        "bytes" => word_of(alloc, yes(keeps_bytes(alloc, b"\0\xff")?)),
        _ => word_of(alloc, "no such call"),
    }
}

fn called(alloc: Global, line: &str) -> Result<String, PathError> {
    let Some((call, words)) = line.split_once('|') else {
        return of_none(alloc, line);
    };
    let Some((word, rest)) = words.split_once('|') else {
        return of_one(alloc, call, words);
    };
    match rest.split_once('|') {
        None => of_two(alloc, call, word, rest),
        Some((name, other)) => of_three(alloc, word, name, other),
    }
}

/// What the call of a line gives.
pub(crate) fn answer(alloc: Global, line: &str) -> Result<String, AllocError> {
    match called(alloc, line) {
        Ok(said) => Ok(said),
        Err(error) => format!(in alloc; "{error}"),
    }
}

// The words of the command line.
use std::alloc::{AllocError, Global};
use std::env::{Env, FillError};
use std::str;

/// The longest word that any command line has: `--old-datadir=` and a directory of 1,024 bytes.
const LONGEST: usize = 14 + 1024;

// The word at a position, if there is one. One that is not UTF-8 or longer than any that a command line has is the empty
// word, which faults at the same position.
fn word(rt: &impl Env, alloc: Global, position: usize) -> Result<Option<String>, AllocError> {
    let mut buffer = [0u8; LONGEST];
    match rt.arg(position, &mut buffer) {
        Ok(length) => match str::from_utf8(&buffer[..length]) {
            Ok(text) => Ok(Some(String::from_str(alloc, text)?)),
            Err(_) => Ok(Some(String::new(alloc))),
        },
        Err(FillError::TooLong) => Ok(Some(String::new(alloc))),
        Err(FillError::NotPresent) => Ok(None),
    }
}

/// The words behind the program's name.
pub(crate) fn words(rt: &impl Env, alloc: Global) -> Result<Vec<String>, AllocError> {
    let mut words = Vec::new(alloc);
    for position in 1..usize::MAX {
        match word(rt, alloc, position)? {
            Some(word) => words.push(word)?,
            None => break,
        }
    }
    Ok(words)
}

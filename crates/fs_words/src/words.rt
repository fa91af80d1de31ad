// Paths, numbers and bytes as words. A word that cannot be read is want of memory, which no line expects.
use fs_model::{FsError, Path, PathError};
use std::alloc::{AllocError, Global};

/// The path `word` below `top`, the text of a directory without a slash at its end. The word `.` is `top` itself.
pub fn path(alloc: Global, top: &str, word: &str) -> Result<Path, FsError> {
    let word = if word == "." { "" } else { word };
    match Path::parse(alloc, format!(in alloc; "{top}{word}")?.as_str()) {
        Ok(path) => Ok(path),
        Err(PathError::Bad | PathError::OutOfMemory) => Err(FsError::OutOfMemory),
    }
}

/// A number of 32 bits.
pub fn number(word: &str) -> Result<u32, FsError> {
    match word.parse::<u32>() {
        Ok(number) => Ok(number),
        Err(_) => Err(FsError::OutOfMemory),
    }
}

/// The bytes of a text, in which `$` is a line end.
pub fn bytes(alloc: Global, text: &str) -> Result<Vec<u8>, AllocError> {
    let mut bytes = Vec::new(alloc);
    for byte in text.as_bytes() {
        bytes.push(if *byte == b'$' { b'\n' } else { *byte })?;
    }
    Ok(bytes)
}

/// The text of bytes, in quotes.
pub fn shown(alloc: Global, bytes: &[u8]) -> Result<String, AllocError> {
    match str::from_utf8(bytes) {
        Ok(text) => format!(in alloc; "{text:?}"),
        Err(_) => String::from_str(alloc, "no text"),
    }
}

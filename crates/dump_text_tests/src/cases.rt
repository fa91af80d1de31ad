// A case: a text, how it is taken, and how it ends.
use crate::ends::end_of;
use bstr::ByteVec;
use std::alloc::{AllocError, Global};

// The bytes of a line `=BASE` behind its first character.
fn base_of(alloc: Global, line: &str) -> Result<Vec<u8>, AllocError> {
    let (_, base) = line.split_once('=').unwrap_or((line, ""));
    Vec::unescape_bytes(alloc, base)
}

fn end_of_text(alloc: Global, base: &str, way: &str, text: &str) -> Result<Vec<u8>, AllocError> {
    let base = base_of(alloc, base)?;
    let text = Vec::unescape_bytes(alloc, text)?;
    end_of(alloc, &base, way, &text)
}

fn is_wanted(alloc: Global, end: &[u8], wanted: &str) -> Result<bool, AllocError> {
    Ok(Vec::unescape_bytes(alloc, wanted)?.as_slice() == end)
}

/// How the text ends over the catalog of the line `=BASE`, where that isn't the end that the head `@WAY END` says. A head that
/// says none fits no end.
pub(crate) fn wrong(
    alloc: Global,
    base: &str,
    head: &str,
    text: &str,
) -> Result<Option<Vec<u8>>, AllocError> {
    let (way, wanted) = head.split_once(' ').unwrap_or(("", ""));
    let end = end_of_text(alloc, base, way, text)?;
    if is_wanted(alloc, &end, wanted)? {
        Ok(None)
    } else {
        Ok(Some(end))
    }
}

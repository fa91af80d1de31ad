// Catalog texts by their names: a block `text NAME` of the input has the lines of one.
use catalog::Catalog;
use dump_text::{load, print};
use std::alloc::{AllocError, Global};

fn name_in(block: &str) -> Option<(&str, &str)> {
    let (title, text) = block.split_once('\n')?;
    Some((title.strip_prefix("text ")?, text))
}

// The lines of the text of a name, without the last line's end. There are none where no text has the name.
fn lines_of<'a>(input: &'a str, name: &str) -> &'a str {
    for block in input.split("\n\n") {
        if let Some((found, lines)) = name_in(block) {
            if found == name {
                return lines.trim_end();
            }
        }
    }
    ""
}

// The name of the text of these lines, or the lines themselves.
fn name_of<'a>(input: &'a str, lines: &'a str) -> &'a str {
    for block in input.split("\n\n") {
        if let Some((name, found)) = name_in(block) {
            if found.trim_end() == lines {
                return name;
            }
        }
    }
    lines
}

/// The text of a name.
pub(crate) fn text(alloc: Global, input: &str, name: &str) -> Result<String, AllocError> {
    let lines = lines_of(input, name);
    format!(in alloc; "{lines}\n")
}

/// The name of a text, or the text itself.
pub(crate) fn shown(alloc: Global, input: &str, bytes: &[u8]) -> Result<String, AllocError> {
    match str::from_utf8(bytes)
        .unwrap_or("no text")
        .strip_suffix('\n')
    {
        Some(lines) => String::from_str(alloc, name_of(input, lines)),
        None => String::from_str(alloc, "no whole line"),
    }
}

/// The name of the canonical text of a catalog, or the text itself.
pub(crate) fn printed(alloc: Global, input: &str, catalog: &Catalog) -> Result<String, AllocError> {
    match print(alloc, catalog) {
        Ok(text) => shown(alloc, input, &text),
        Err(_) => Err(AllocError),
    }
}

/// The catalog of the text of a name.
pub(crate) fn catalog(alloc: Global, input: &str, name: &str) -> Result<Catalog, AllocError> {
    match load(alloc, text(alloc, input, name)?.as_bytes()) {
        Ok(catalog) => Ok(catalog),
        Err(_) => Err(AllocError),
    }
}

// Catalog texts by their names: a block `text NAME` of the input has the lines of one.

fn text_in<'a>(block: &'a str, name: &str) -> Option<&'a str> {
    let (title, text) = block.split_once('\n')?;
    match title.strip_prefix("text ") {
        Some(found) if found == name => Some(text),
        _ => None,
    }
}

/// The lines of the text of a name, which don't end the last one. There are none where no text has the name.
pub(crate) fn text<'a>(input: &'a str, name: &str) -> &'a str {
    for block in input.split("\n\n") {
        if let Some(text) = text_in(block, name) {
            return text;
        }
    }
    ""
}

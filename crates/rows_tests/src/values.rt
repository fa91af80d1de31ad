// Rows and values in words.
use cluster_meaning::Value;
use cluster_read::{Row, Rows};
use control_file::crc32c;
use std::alloc::{AllocError, Global};

static DIGITS: [char; 16] = [
    '0', '1', '2', '3', '4', '5', '6', '7', '8', '9', 'a', 'b', 'c', 'd', 'e', 'f',
];

fn push_hex(said: &mut String, bytes: &[u8]) -> Result<(), AllocError> {
    for byte in bytes {
        said.push(DIGITS[(*byte >> 4) as usize])?;
        said.push(DIGITS[(*byte & 15) as usize])?;
    }
    Ok(())
}

fn push_sum(said: &mut String, bytes: &[u8]) -> Result<(), AllocError> {
    let alloc = *said.allocator();
    let count = bytes.len();
    let crc = crc32c(bytes);
    said.push_str(&format!(in alloc; "{count} bytes, {crc}")?)
}

// Hex digits; of more than 128 bytes their number and their CRC-32C.
fn push_bytes(said: &mut String, kind: &str, bytes: &[u8]) -> Result<(), AllocError> {
    said.push_str(kind)?;
    if bytes.len() > 128 {
        push_sum(said, bytes)?;
    } else {
        push_hex(said, bytes)?;
    }
    said.push(')')
}

fn push_value(said: &mut String, value: &Value) -> Result<(), AllocError> {
    match value {
        Value::Null => said.push_str(" null"),
        Value::Bytes(bytes) => push_bytes(said, " (", bytes.bytes()),
        Value::Compressed(bytes) => push_bytes(said, " compressed(", bytes.bytes()),
        Value::Label(text) => push_bytes(said, " label(", text.bytes()),
        Value::Broken(bytes) => push_bytes(said, " broken(", bytes.bytes()),
    }
}

fn push_row(said: &mut String, row: &Row) -> Result<(), AllocError> {
    let alloc = *said.allocator();
    let place = format!(in alloc; "{}.{}", row.block, row.line)?;
    said.push_str(&place)?;
    for value in row.values.items() {
        push_value(said, value)?;
    }
    said.push_str("; ")
}

/// The rows, each its block, its line and its values; then the blocks that were no pages, and how many tuples weren't told of.
pub(crate) fn shown(alloc: Global, rows: &Rows) -> Result<String, AllocError> {
    let mut said = String::new(alloc);
    for row in &rows.rows {
        push_row(&mut said, row)?;
    }
    let unread = &rows.unread;
    let unknown = rows.unknown;
    let rest = format!(in alloc; "unread {unread:?}, unknown {unknown}")?;
    said.push_str(&rest)?;
    Ok(said)
}

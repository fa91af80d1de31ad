// The calls of the lines.
use crate::rows::live_rows;
use cluster_gen::{GenError, make};
use control_file::crc32c;
use fs_mem::{Entry, Tree};
use fs_model::Path;
use std::alloc::Global;

// The tree of the pair with so many tables.
fn tree(alloc: Global, tables: u64) -> Option<Tree> {
    let fs = make(alloc, tables).ok()?;
    fs.tree(alloc).ok()
}

// A line of text for an entry: its path, and of a file its inode, its length and the CRC-32C of its bytes.
fn put_entry(alloc: Global, text: &mut String, path: &Path, entry: &Entry) -> Option<()> {
    text.push_str(&path.text().ok()?).ok()?;
    let said = match entry {
        Entry::Dir { device } => format!(in alloc; " device {device}\n"),
        Entry::File { inode, bytes } => {
            let length = bytes.bytes().len();
            let crc = crc32c(bytes.bytes());
            format!(in alloc; " {inode} {length} {crc:08x}\n")
        }
        Entry::Sym(_) => format!(in alloc; " link\n"),
    };
    text.push_str(&said.ok()?).ok()
}

fn listed(alloc: Global, tree: &Tree) -> Option<String> {
    let mut text = String::new(alloc);
    for (path, entry) in tree.items() {
        put_entry(alloc, &mut text, path, entry)?;
    }
    Some(text)
}

// The number of the rows of all files that are pages.
fn rows(tree: &Tree) -> u64 {
    let mut count = 0u64;
    for (_, entry) in tree.items() {
        if let Entry::File { bytes, .. } = entry {
            count = count.saturating_add(live_rows(bytes.bytes()));
        }
    }
    count
}

// The number of entries and of rows, and the CRC-32C of the list.
fn summed(alloc: Global, tables: u64) -> Option<String> {
    let tree = tree(alloc, tables)?;
    let entries = tree.items().len();
    let rows = rows(&tree);
    let list = listed(alloc, &tree)?;
    let crc = crc32c(list.as_bytes());
    format!(in alloc; "{entries} entries, {rows} rows, {crc:08x}").ok()
}

// How many of the first so many numbers have a pair.
fn counted(alloc: Global, numbers: u64) -> Option<String> {
    let mut count = 0u64;
    for tables in 0..numbers {
        if make(alloc, tables).is_ok() {
            count = count.saturating_add(1);
        }
    }
    format!(in alloc; "{count}").ok()
}

fn is_too_many(alloc: Global, tables: u64) -> bool {
    matches!(make(alloc, tables), Err(GenError::TooMany))
}

// The text of the old cluster's catalog.
fn catalog(alloc: Global, tables: u64) -> Option<String> {
    for (path, entry) in tree(alloc, tables)?.items() {
        if let Entry::File { bytes, .. } = entry {
            if path.text().ok()?.as_str() == "/old/pg_profile/catalog.sql" {
                return String::from_utf8_lossy(alloc, bytes.bytes()).ok();
            }
        }
    }
    None
}

/// What the call of a line gives.
pub(crate) fn answer(alloc: Global, line: &str) -> Option<String> {
    let (call, word) = line.split_once(' ')?;
    let tables = word.parse::<u64>().ok()?;
    match call {
        "list" => listed(alloc, &tree(alloc, tables)?),
        "sum" => summed(alloc, tables),
        "count" => counted(alloc, tables),
        "catalog" => catalog(alloc, tables),
        "too_many" => format!(in alloc; "{}", is_too_many(alloc, tables)).ok(),
        _ => None,
    }
}

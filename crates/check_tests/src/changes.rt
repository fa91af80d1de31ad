// What the lines of a block change in a cluster.
use crate::clusters::pair;
use fs_mem::MemFs;
use fs_model::{Fs, FsError, Path};
use fs_words::{number, path};
use sample_clusters::seal_control_file;
use std::alloc::{AllocError, Global};

// ---- control files

// Where the fields stand in the control record (`pg_control.h`).
static FIELDS: [(&str, usize); 13] = [
    ("pg_control_version", 8),
    ("catalog_version_no", 12),
    ("state", 16),
    ("maxAlign", 204),
    ("blcksz", 216),
    ("relseg_size", 220),
    ("xlog_blcksz", 224),
    ("xlog_seg_size", 228),
    ("nameDataLen", 232),
    ("indexMaxKeys", 236),
    ("toast_max_chunk_size", 240),
    ("loblksize", 244),
    ("data_checksum_version", 252),
];

fn place_of(field: &str) -> Result<usize, FsError> {
    for (name, place) in &FIELDS {
        if *name == field {
            return Ok(*place);
        }
    }
    Err(FsError::OutOfMemory)
}

fn put_number(bytes: &mut [u8; 8192], place: usize, value: u32) {
    if place <= 8188 {
        bytes[place..place + 4].copy_from_slice(&value.to_le_bytes());
    }
}

fn set(fs: &mut MemFs, file: &Path, place: usize, value: u32) -> Result<(), FsError> {
    let mut bytes = [0u8; 8192];
    fs.read_at(file, 0, &mut bytes)?;
    put_number(&mut bytes, place, value);
    seal_control_file(&mut bytes);
    fs.write_at(file, 0, &bytes)
}

fn set_field(alloc: Global, fs: &mut MemFs, root: &str, words: &str) -> Result<(), FsError> {
    let (field, value) = words.split_once(' ').unwrap_or((words, ""));
    let file = path(alloc, root, "/global/pg_control")?;
    set(fs, &file, place_of(field)?, number(value)?)
}

// ---- catalog texts

fn catalog_path(alloc: Global, root: &str) -> Result<Path, FsError> {
    path(alloc, root, "/pg_profile/catalog.sql")
}

fn empty_catalog(alloc: Global, fs: &mut MemFs, root: &str) -> Result<(), FsError> {
    let file = catalog_path(alloc, root)?;
    fs.unlink(&file)?;
    fs.create(&file)
}

fn append(fs: &mut MemFs, file: &Path, text: &[u8]) -> Result<(), FsError> {
    let size = fs.stat(file)?.size;
    if size > 100_000_000 || text.len() > 100_000_000 {
        return Err(FsError::OutOfMemory);
    }
    fs.write_at(file, size, text)
}

// Adds a text in which the number stands for each `%`, and a line end for each `$`.
fn add_numbered(all: &mut String, text: &str, number: &str) -> Result<(), AllocError> {
    for letter in text.chars() {
        match letter {
            '%' => all.push_str(number)?,
            '$' => all.push('\n')?,
            _ => all.push(letter)?,
        }
    }
    Ok(())
}

// The text for each of the numbers, one behind the other.
fn numbered(alloc: Global, text: &str, first: u32, last: u32) -> Result<String, AllocError> {
    let mut all = String::new(alloc);
    for number in first..=last {
        add_numbered(&mut all, text, format!(in alloc; "{number}")?.as_str())?;
    }
    Ok(all)
}

fn add_line(alloc: Global, fs: &mut MemFs, root: &str, line: &str) -> Result<(), FsError> {
    let file = catalog_path(alloc, root)?;
    let text = format!(in alloc; "{line}\n")?;
    append(fs, &file, text.as_bytes())
}

fn add_texts(alloc: Global, fs: &mut MemFs, root: &str, words: &str) -> Result<(), FsError> {
    let (first, rest) = words.split_once(' ').unwrap_or((words, ""));
    let (last, text) = rest.split_once(' ').unwrap_or((rest, ""));
    let file = catalog_path(alloc, root)?;
    let text = numbered(alloc, text, number(first)?, number(last)?)?;
    append(fs, &file, text.as_bytes())
}

// ---- a line

/// Makes the change that the line says, where it says one of these:
/// `control ROOT FIELD NUMBER` sets a field of the control file and makes its CRC anew; `catalog ROOT` makes the catalog text
/// empty; `sql ROOT LINE` adds a line to it; `sql_each ROOT FIRST LAST TEXT` adds a text for each number; `pair OLD NEW`
/// makes two more sample clusters.
pub(crate) fn change(alloc: Global, fs: &mut MemFs, line: &str) -> Option<Result<(), FsError>> {
    let (word, words) = line.split_once(' ').unwrap_or((line, ""));
    let (root, rest) = words.split_once(' ').unwrap_or((words, ""));
    match word {
        "control" => Some(set_field(alloc, fs, root, rest)),
        "catalog" => Some(empty_catalog(alloc, fs, root)),
        "sql" => Some(add_line(alloc, fs, root, rest)),
        "sql_each" => Some(add_texts(alloc, fs, root, rest)),
        "pair" => Some(pair(alloc, fs, root, rest)),
        _ => None,
    }
}

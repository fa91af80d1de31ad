// The calls of a block.
use crate::cluster::{catalog, cluster};
use crate::pages::{bytes, put_page, put_word};
use crate::values::shown;
use catalog::Catalog;
use cluster_read::rows_of;
use control_file::Release;
use fs_mem::MemFs;
use fs_model::{Fs, FsError, Path};
use fs_words::{answer, call, check, number, path};
use sample_clusters::seal_control_file;
use std::alloc::{AllocError, Global};
use visibility::Snapshot;

// ---- what stands

// Writes at most 8192 bytes at a place of a file, which is made where nothing stands.
fn write(fs: &mut MemFs, at: &Path, from: u64, bytes: &[u8]) -> Result<(), FsError> {
    if from > 0xffff_ffff || bytes.len() > 8192 {
        return Err(FsError::OutOfMemory);
    }
    match fs.create(at) {
        Ok(()) | Err(FsError::Exists) => fs.write_at(at, from, bytes),
        Err(error) => Err(error),
    }
}

fn write_bytes(alloc: Global, fs: &mut MemFs, at: &Path, words: &str) -> Result<(), FsError> {
    let (from, word) = words.split_once(' ').unwrap_or((words, ""));
    write(fs, at, u64::from(number(from)?), &bytes(alloc, word)?)
}

// Writes a page as a block of a file.
fn write_page(alloc: Global, fs: &mut MemFs, at: &Path, words: &str) -> Result<(), FsError> {
    let (block, tuples) = words.split_once(' ').unwrap_or((words, ""));
    let mut page = [0u8; 8192];
    put_page(alloc, &mut page, tuples)?;
    write(fs, at, u64::from(number(block)?).wrapping_mul(8192), &page)
}

// Puts bytes into the control file, with a checksum that is right.
fn write_control(alloc: Global, fs: &mut MemFs, words: &str) -> Result<(), FsError> {
    let at = path(alloc, "", "/c/global/pg_control")?;
    let (place, word) = words.split_once(' ').unwrap_or((words, ""));
    let mut bytes = [0u8; 8192];
    fs.read_at(&at, 0, &mut bytes)?;
    put_word(alloc, &mut bytes, number(place)?, word)?;
    seal_control_file(&mut bytes);
    fs.write_at(&at, 0, &bytes)
}

fn written(alloc: Global, fs: &mut MemFs, call: &str, words: &str) -> Result<(), FsError> {
    let (word, rest) = words.split_once(' ').unwrap_or((words, ""));
    match call {
        "put" => write_bytes(alloc, fs, &path(alloc, "", word)?, rest),
        "page" => write_page(alloc, fs, &path(alloc, "", word)?, rest),
        _ => write_control(alloc, fs, words),
    }
}

// ---- what is read

// Numbers with `,` between them; `none` is none.
fn numbers(alloc: Global, word: &str) -> Result<Vec<u32>, FsError> {
    let mut numbers = Vec::new(alloc);
    if word != "none" {
        for one in word.split(',') {
            numbers.push(number(one)?)?;
        }
    }
    Ok(numbers)
}

// A snapshot by its xmin, its xmax and what runs.
fn snapshot(alloc: Global, words: &str) -> Result<Snapshot, FsError> {
    let (xmin, rest) = words.split_once(' ').unwrap_or((words, ""));
    let (xmax, running) = rest.split_once(' ').unwrap_or((rest, ""));
    match Snapshot::new(number(xmin)?, number(xmax)?, numbers(alloc, running)?) {
        Ok(snapshot) => Ok(snapshot),
        Err(_) => Err(FsError::OutOfMemory),
    }
}

fn rows(
    alloc: Global,
    fs: &mut MemFs,
    catalog: &Catalog,
    database: u32,
    table: u32,
    snapshot: &Snapshot,
) -> Result<String, FsError> {
    let root = path(alloc, "", "/c")?;
    match rows_of(
        alloc,
        fs,
        &root,
        Release::V15,
        catalog,
        database,
        table,
        snapshot,
    ) {
        Ok(rows) => Ok(shown(alloc, &rows)?),
        Err(error) => Ok(format!(in alloc; "{error:?}")?),
    }
}

fn read(alloc: Global, fs: &mut MemFs, catalog: &Catalog, words: &str) -> Result<String, FsError> {
    let (database, rest) = words.split_once(' ').unwrap_or((words, ""));
    let (table, rest) = rest.split_once(' ').unwrap_or((rest, ""));
    let snapshot = snapshot(alloc, rest)?;
    rows(
        alloc,
        fs,
        catalog,
        number(database)?,
        number(table)?,
        &snapshot,
    )
}

// ---- a block

fn called(alloc: Global, fs: &mut MemFs, catalog: &Catalog, line: &str) -> Result<String, FsError> {
    let (call, words) = line.split_once(' ').unwrap_or((line, ""));
    match call {
        "rows" => read(alloc, fs, catalog, words),
        "put" | "page" | "control" => {
            written(alloc, fs, call, words)?;
            Ok(String::new(alloc))
        }
        _ => Ok(answer(alloc, fs, "", line)?),
    }
}

fn given(
    alloc: Global,
    fs: &mut MemFs,
    catalog: &Catalog,
    line: &str,
) -> Result<String, AllocError> {
    match called(alloc, fs, catalog, line) {
        Ok(said) => Ok(said),
        Err(error) => format!(in alloc; "the line itself: {error:?}"),
    }
}

fn wrong_lines(
    alloc: Global,
    fs: &mut MemFs,
    catalog: &Catalog,
    lines: &str,
) -> Result<String, AllocError> {
    let mut wrong = String::new(alloc);
    for line in lines.lines() {
        if !line.starts_with('#') {
            let given = given(alloc, fs, catalog, call(line))?;
            check(&mut wrong, line, &given)?;
        }
    }
    Ok(wrong)
}

fn over(alloc: Global, catalog: &Catalog, lines: &str) -> Result<String, AllocError> {
    match cluster(alloc) {
        Ok(mut fs) => wrong_lines(alloc, &mut fs, catalog, lines),
        Err(_) => Err(AllocError),
    }
}

/// What is wrong with a block, or nothing.
pub(crate) fn wrong(alloc: Global, block: &str) -> Result<String, AllocError> {
    let (_, behind) = block.split_once("\ncolumns ").unwrap_or((block, ""));
    let (columns, lines) = behind.split_once('\n').unwrap_or((behind, ""));
    over(alloc, &catalog(alloc, columns)?, lines)
}

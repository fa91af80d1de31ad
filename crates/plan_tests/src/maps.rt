// What the map of two clusters is, as a line.
use catalog::Catalog;
use control_file::{Job, Mode, Side};
use dump_text::load;
use fs_model::Path;
use relation_map::{FileMap, MapEntry, MapError, build};
use std::alloc::{AllocError, Global};

pub(crate) fn path_of(alloc: Global, text: &str) -> Result<Path, AllocError> {
    match Path::parse(alloc, text) {
        Ok(path) => Ok(path),
        Err(_) => Err(AllocError),
    }
}

/// From `/o` to `/n`.
pub(crate) fn job(alloc: Global) -> Result<Job, AllocError> {
    Ok(Job {
        old: path_of(alloc, "/o")?,
        new: path_of(alloc, "/n")?,
        mode: Mode::Copy,
    })
}

fn push_entry(said: &mut String, entry: &MapEntry) -> Result<(), AllocError> {
    let alloc = *said.allocator();
    let from = entry.from_dir.text()?;
    let to = entry.to_dir.text()?;
    let text = format!(in alloc; "{} {from} {to} {}; ", entry.oid, entry.file)?;
    said.push_str(&text)
}

fn entries_text(alloc: Global, map: &FileMap) -> Result<String, AllocError> {
    let mut said = String::new(alloc);
    for entry in map.entries() {
        push_entry(&mut said, entry)?;
    }
    Ok(said)
}

fn error_text(alloc: Global, error: MapError) -> Result<String, AllocError> {
    match error {
        MapError::Unmatched(database, oid, Side::Old) => {
            format!(in alloc; "{oid} of {database} is old alone")
        }
        MapError::Unmatched(database, oid, Side::New) => {
            format!(in alloc; "{oid} of {database} is new alone")
        }
        MapError::NameDiffers(database, oid) => {
            format!(in alloc; "{oid} of {database} has another name")
        }
        MapError::OutOfMemory => Err(AllocError),
    }
}

fn map_text(alloc: Global, old: &Catalog, new: &Catalog) -> Result<String, AllocError> {
    match build(alloc, old, new, &job(alloc)?) {
        Ok(map) => entries_text(alloc, &map),
        Err(error) => error_text(alloc, error),
    }
}

fn map_into(alloc: Global, old: &Catalog, new: &str) -> Result<String, AllocError> {
    match load(alloc, new.as_bytes()) {
        Ok(new) => map_text(alloc, old, &new),
        Err(_) => String::from_str(alloc, "no new catalog"),
    }
}

/// The map of the two catalogs of a line.
pub(crate) fn mapped(alloc: Global, line: &str) -> Result<String, AllocError> {
    let (old, new) = line.split_once('|').unwrap_or((line, line));
    match load(alloc, old.as_bytes()) {
        Ok(old) => map_into(alloc, &old, new),
        Err(_) => String::from_str(alloc, "no old catalog"),
    }
}

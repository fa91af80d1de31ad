// Which files the new directory has once a plan was carried out.
use crate::maps::path_of;
use crate::plans::{empty, make_all, map_of, said};
use copy_transfer::copy_all;
use disable_old::{LinkPermit, disable, paths};
use fs_model::{Fs, FsError, Name, Path};
use fs_tools::{read_all, same_inode};
use fs_untold::Untold;
use link_transfer::link_all;
use plan_build::plan_of;
use relation_map::FileMap;
use std::alloc::{AllocError, Global};

fn file_in(alloc: Global, dir: &str, name: &Name) -> Result<Path, AllocError> {
    let name = name.text();
    path_of(alloc, format!(in alloc; "{dir}/{name}")?.as_str())
}

// A file of the new directory with its bytes, and a mark where it is a name of the old file.
fn push_file<F: Fs>(fs: &mut F, said: &mut String, name: &Name) -> Result<(), FsError> {
    let alloc = *said.allocator();
    let new = file_in(alloc, "/n/base/5", name)?;
    let mark = match same_inode(fs, &new, &file_in(alloc, "/o/base/5", name)?) {
        Ok(true) => "@",
        Ok(false) => "",
        Err(error) => return Err(error),
    };
    let bytes = read_all(alloc, fs, &new)?;
    let text = str::from_utf8(&bytes).unwrap_or("no text");
    let file = name.text();
    Ok(said.push_str(&format!(in alloc; "{file}={text}{mark}; ")?)?)
}

fn files_text<F: Fs>(alloc: Global, fs: &mut F) -> Result<String, FsError> {
    let mut said = String::new(alloc);
    for name in &fs.list(alloc, &path_of(alloc, "/n/base/5")?)? {
        push_file(fs, &mut said, name)?;
    }
    Ok(said)
}

fn copied_text<F: Fs>(
    alloc: Global,
    fs: &mut F,
    map: &FileMap,
    line: &str,
) -> Result<String, FsError> {
    make_all(alloc, fs, line)?;
    let plan = plan_of(alloc, fs, map)?;
    copy_all(fs, &plan, &mut [0u8; 2])?;
    files_text(alloc, fs)
}

/// The files of the new directory once the table's were copied.
pub(crate) fn copied(alloc: Global, line: &str) -> Result<String, AllocError> {
    let map = map_of(alloc)?;
    said(alloc, copied_text(alloc, &mut empty(alloc)?, &map, line))
}

fn disabled(alloc: Global, fs: &mut Untold) -> Result<LinkPermit, FsError> {
    match paths(alloc, &path_of(alloc, "/o")?) {
        Ok(paths) => disable(fs, paths),
        Err(_) => Err(FsError::OutOfMemory),
    }
}

fn link_plan(
    alloc: Global,
    fs: &mut Untold,
    map: &FileMap,
    permit: &LinkPermit,
) -> Result<(), FsError> {
    let plan = plan_of(alloc, fs, map)?;
    link_all(fs, &plan, permit)
}

fn linked_text(
    alloc: Global,
    fs: &mut Untold,
    map: &FileMap,
    line: &str,
) -> Result<String, FsError> {
    make_all(alloc, fs, line)?;
    let permit = disabled(alloc, fs)?;
    link_plan(alloc, fs, map, &permit)?;
    files_text(alloc, fs)
}

/// The files of the new directory once the table's were linked. What the file system does isn't told, so that a permit can be
/// had.
pub(crate) fn linked(alloc: Global, line: &str) -> Result<String, AllocError> {
    let map = map_of(alloc)?;
    let mut fs = Untold::new(empty(alloc)?, u64::MAX);
    said(alloc, linked_text(alloc, &mut fs, &map, line))
}

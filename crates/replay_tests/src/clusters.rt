// Two clusters in memory that have no more than a server looks at.
use fs_mem::{Failing, MemFs, Tree};
use fs_model::{Fs, FsError, Path};
use fs_tools::make_file;
use fs_words::path;
use std::alloc::Global;

static DIRECTORIES: [&str; 10] = [
    "/old",
    "/old/pg_profile",
    "/new",
    "/new/base",
    "/new/base/1",
    "/new/base/4",
    "/new/base/5",
    "/new/pg_tblspc",
    "/new/pg_profile",
    "/space",
];

fn make_dirs(alloc: Global, fs: &mut MemFs) -> Result<(), FsError> {
    for dir in &DIRECTORIES {
        fs.make_dir(&path(alloc, "", dir)?)?;
    }
    Ok(())
}

fn put(alloc: Global, fs: &mut MemFs, at: &str, text: &str) -> Result<(), FsError> {
    make_file(fs, &path(alloc, "", at)?, text.as_bytes())
}

fn fill(alloc: Global, fs: &mut MemFs, old: &str, new: &str) -> Result<(), FsError> {
    make_dirs(alloc, fs)?;
    put(alloc, fs, "/old/pg_profile/catalog.sql", old)?;
    put(alloc, fs, "/new/pg_profile/catalog.sql", new)
}

fn opened(alloc: Global, tree: Tree, failing: Vec<Failing>) -> Option<MemFs> {
    MemFs::new(alloc, tree, failing).ok()
}

/// An old cluster at `/old` and a new one at `/new` with these catalog texts, and a directory `/space`.
pub(crate) fn clusters(alloc: Global, old: &str, new: &str) -> Option<Tree> {
    let mut fs = opened(alloc, Tree::new(Vec::new(alloc)), Vec::new(alloc))?;
    fill(alloc, &mut fs, old, new).ok()?;
    fs.tree(alloc).ok()
}

/// The same, all of it on the disk, in a file system in which this call fails, with its effect or without.
pub(crate) fn failing(
    alloc: Global,
    old: &str,
    new: &str,
    failing: Option<Failing>,
) -> Option<MemFs> {
    let tree = clusters(alloc, old, new)?;
    let mut calls = Vec::new(alloc);
    if let Some(one) = failing {
        calls.push(one).ok()?;
    }
    opened(alloc, tree, calls)
}

/// The path that a word is.
pub(crate) fn path_of(alloc: Global, word: &str) -> Option<Path> {
    path(alloc, "", word).ok()
}

// Two clusters in memory that have no more than a server looks at, but for their catalog texts.
use fs_mem::{MemFs, Tree};
use fs_model::{Fs, FsError};
use fs_words::path;
use std::alloc::Global;

static DIRECTORIES: [&str; 10] = [
    "/old",
    "/old/pg_profile",
    "/new",
    "/new/base",
    "/new/base/1",
    "/new/base/4",
    "/new/base/5",
    "/new/pg_tblspc",
    "/new/pg_profile",
    "/space",
];

fn empty(alloc: Global) -> Result<MemFs, FsError> {
    match MemFs::new(alloc, Tree::new(Vec::new(alloc)), Vec::new(alloc)) {
        Ok(fs) => Ok(fs),
        Err(_) => Err(FsError::OutOfMemory),
    }
}

fn make(alloc: Global, fs: &mut MemFs) -> Result<(), FsError> {
    for dir in &DIRECTORIES {
        fs.make_dir(&path(alloc, "", dir)?)?;
    }
    Ok(())
}

/// An old cluster at `/old`, a new one at `/new`, and a directory `/space`.
pub(crate) fn clusters(alloc: Global) -> Result<MemFs, FsError> {
    let mut fs = empty(alloc)?;
    make(alloc, &mut fs)?;
    Ok(fs)
}

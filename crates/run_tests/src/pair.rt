// The small pair of clusters in memory, `/old` and `/new`, with changes.
use crate::trees::tree_of;
use fs_mem::{Failing, MemFs, Tree};
use fs_model::{Fs, FsError};
use fs_words::{answer, path};
use sample_clusters::make_pair;
use std::alloc::Global;

// Makes files short that a run does not look into, so that whole trees are soon compared.
const SHORT: &str = "\
unlink /old/pg_xact/0000
create /old/pg_xact/0000
write /old/pg_xact/0000 0 xact
unlink /old/pg_multixact/offsets/0000
create /old/pg_multixact/offsets/0000
write /old/pg_multixact/offsets/0000 0 offsets
unlink /old/pg_multixact/members/0000
create /old/pg_multixact/members/0000
write /old/pg_multixact/members/0000 0 members
unlink /new/pg_xact/0000
create /new/pg_xact/0000
unlink /new/pg_multixact/offsets/0000
create /new/pg_multixact/offsets/0000
unlink /new/pg_multixact/members/0000
create /new/pg_multixact/members/0000";

// A change that is not done is want of memory, so that no file system opens.
fn change<F: Fs>(alloc: Global, fs: &mut F, line: &str) -> Result<(), FsError> {
    if answer(alloc, fs, "", line)?.as_str() == "ok" {
        Ok(())
    } else {
        Err(FsError::OutOfMemory)
    }
}

fn change_all<F: Fs>(alloc: Global, fs: &mut F, lines: &str) -> Result<(), FsError> {
    for line in lines.lines() {
        match line {
            "shorten" => change_short(alloc, fs)?,
            _ if line.starts_with('#') => {}
            _ => change(alloc, fs, line)?,
        }
    }
    Ok(())
}

fn change_short<F: Fs>(alloc: Global, fs: &mut F) -> Result<(), FsError> {
    for line in SHORT.lines() {
        change(alloc, fs, line)?;
    }
    Ok(())
}

fn make<F: Fs>(alloc: Global, fs: &mut F, lines: &str) -> Result<(), FsError> {
    make_pair(fs, &path(alloc, "", "/old")?, &path(alloc, "", "/new")?)?;
    change_all(alloc, fs, lines)
}

fn over(alloc: Global, tree: Tree, failing: &[Failing]) -> Result<MemFs, FsError> {
    match MemFs::new(alloc, tree, failing.to_vec(alloc)?) {
        Ok(fs) => Ok(fs),
        Err(_) => Err(FsError::OutOfMemory),
    }
}

// The tree of the pair, changed.
fn pair(alloc: Global, lines: &str) -> Result<Tree, FsError> {
    let mut fs = over(alloc, Tree::new(Vec::new(alloc)), &[])?;
    make(alloc, &mut fs, lines)?;
    tree_of(alloc, &fs)
}

/// The file system that opens with the pair, changed by the lines, all of it on the disk, and fails at these calls.
pub(crate) fn opened(alloc: Global, lines: &str, failing: &[Failing]) -> Result<MemFs, FsError> {
    over(alloc, pair(alloc, lines)?, failing)
}

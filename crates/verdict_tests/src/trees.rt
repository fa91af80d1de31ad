// The trees that file systems open with.
use fs_mem::{Entry, Failing, MemFs, Tree, TreeError};
use fs_model::{Bytes, FsError, Path};
use fs_words::{number, path};
use std::alloc::Global;

// What stands at a path: `dir PATH DEVICE`, `file PATH INODE` or `link PATH TARGET`.
fn standing(alloc: Global, kind: &str, word: &str) -> Result<Entry, FsError> {
    match kind {
        "dir" => Ok(Entry::Dir {
            device: u64::from(number(word)?),
        }),
        "file" => Ok(Entry::File {
            inode: u64::from(number(word)?),
            bytes: Bytes::new(Vec::new(alloc)),
        }),
        "link" => Ok(Entry::Sym(path(alloc, "", word)?)),
        _ => Err(FsError::OutOfMemory),
    }
}

fn entry(alloc: Global, line: &str) -> Result<(Path, Entry), FsError> {
    let (kind, words) = line.split_once(' ').unwrap_or((line, ""));
    let (at, word) = words.split_once(' ').unwrap_or((words, "0"));
    Ok((path(alloc, "", at)?, standing(alloc, kind, word)?))
}

fn tree(alloc: Global, lines: &str) -> Result<Tree, FsError> {
    let mut entries = Vec::new(alloc);
    for line in lines.lines() {
        if !line.starts_with('#') {
            entries.push(entry(alloc, line)?)?;
        }
    }
    Ok(Tree::new(entries))
}

// The call of this number fails.
fn failing(alloc: Global, word: &str) -> Result<Vec<Failing>, FsError> {
    let mut failing = Vec::new(alloc);
    if !word.is_empty() {
        failing.push(Failing {
            call: u64::from(number(word)?),
            effect: false,
        })?;
    }
    Ok(failing)
}

fn over(alloc: Global, tree: Tree, word: &str) -> Result<MemFs, TreeError> {
    match failing(alloc, word) {
        Ok(failing) => MemFs::new(alloc, tree, failing),
        Err(_) => Err(TreeError::OutOfMemory),
    }
}

/// The file system that opens with what the lines say; the call whose number the word is fails.
pub(crate) fn opened(alloc: Global, lines: &str, word: &str) -> Result<MemFs, TreeError> {
    match tree(alloc, lines) {
        Ok(tree) => over(alloc, tree, word),
        Err(_) => Err(TreeError::OutOfMemory),
    }
}

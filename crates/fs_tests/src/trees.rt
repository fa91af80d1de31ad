// The trees that file systems open with.
use fs_mem::{Entry, Failing, MemFs, Tree, TreeError};
use fs_model::{Bytes, FsError, Path};
use fs_words::{bytes, number, path};
use std::alloc::Global;

fn file(alloc: Global, inode: &str, text: &str) -> Result<Entry, FsError> {
    Ok(Entry::File {
        inode: u64::from(number(inode)?),
        bytes: Bytes::new(bytes(alloc, text)?),
    })
}

// What stands at a path: `dir PATH DEVICE`, `file PATH INODE TEXT` or `link PATH TARGET`.
fn standing(alloc: Global, kind: &str, words: &str) -> Result<Entry, FsError> {
    let (word, rest) = words.split_once(' ').unwrap_or((words, ""));
    match kind {
        "dir" => Ok(Entry::Dir {
            device: u64::from(number(word)?),
        }),
        "file" => file(alloc, word, rest),
        "link" => Ok(Entry::Sym(path(alloc, "", word)?)),
        _ => Err(FsError::OutOfMemory),
    }
}

fn entry(alloc: Global, line: &str) -> Result<(Path, Entry), FsError> {
    let (kind, words) = line.split_once(' ').unwrap_or((line, ""));
    let (at, rest) = words.split_once(' ').unwrap_or((words, ""));
    Ok((path(alloc, "", at)?, standing(alloc, kind, rest)?))
}

fn tree(alloc: Global, lines: &str) -> Result<Tree, FsError> {
    let mut entries = Vec::new(alloc);
    for line in lines.lines() {
        if !line.starts_with('#') {
            entries.push(entry(alloc, line)?)?;
        }
    }
    Ok(Tree::new(entries))
}

// The call of a number fails, `with` its effect or `without`.
fn failing_call(word: &str) -> Result<Failing, FsError> {
    let (call, how) = word.split_once(':').unwrap_or((word, ""));
    let call = u64::from(number(call)?);
    match how {
        "with" => Ok(Failing { call, effect: true }),
        "without" => Ok(Failing {
            call,
            effect: false,
        }),
        _ => Err(FsError::OutOfMemory),
    }
}

fn failing(alloc: Global, words: &str) -> Result<Vec<Failing>, FsError> {
    let mut failing = Vec::new(alloc);
    for word in words.split(' ') {
        if !word.is_empty() {
            failing.push(failing_call(word)?)?;
        }
    }
    Ok(failing)
}

fn over(alloc: Global, tree: Tree, words: &str) -> Result<MemFs, TreeError> {
    match failing(alloc, words) {
        Ok(failing) => MemFs::new(alloc, tree, failing),
        Err(_) => Err(TreeError::OutOfMemory),
    }
}

/// The file system that opens with what the lines say and fails as the words say.
pub(crate) fn opened(alloc: Global, lines: &str, words: &str) -> Result<MemFs, TreeError> {
    match tree(alloc, lines) {
        Ok(tree) => over(alloc, tree, words),
        Err(_) => Err(TreeError::OutOfMemory),
    }
}

// The clusters that a block begins with.
use fs_mem::{Entry, Failing, MemFs, Tree};
use fs_model::{FsError, Path};
use fs_words::{number, path};
use sample_clusters::make_pair;
use std::alloc::Global;

// A directory that stands before the clusters are made: `dir PATH DEVICE`.
fn directory(alloc: Global, line: &str) -> Result<(Path, Entry), FsError> {
    let Some(words) = line.strip_prefix("dir ") else {
        return Err(FsError::OutOfMemory);
    };
    let (at, device) = words.split_once(' ').unwrap_or((words, ""));
    let device = u64::from(number(device)?);
    Ok((path(alloc, "", at)?, Entry::Dir { device }))
}

fn tree(alloc: Global, lines: &str) -> Result<Tree, FsError> {
    let mut entries = Vec::new(alloc);
    for line in lines.lines() {
        if !line.starts_with('#') {
            entries.push(directory(alloc, line)?)?;
        }
    }
    Ok(Tree::new(entries))
}

// The call of this number fails.
fn failing(alloc: Global, word: &str) -> Result<Vec<Failing>, FsError> {
    let mut failing = Vec::new(alloc);
    if !word.is_empty() {
        failing.push(Failing {
            call: u64::from(number(word)?),
            effect: false,
        })?;
    }
    Ok(failing)
}

fn over(alloc: Global, tree: Tree, word: &str) -> Result<MemFs, FsError> {
    let failing = failing(alloc, word)?;
    match MemFs::new(alloc, tree, failing) {
        Ok(fs) => Ok(fs),
        Err(_) => Err(FsError::OutOfMemory),
    }
}

/// Makes the sample clusters, an old one and a new one.
pub(crate) fn pair(alloc: Global, fs: &mut MemFs, old: &str, new: &str) -> Result<(), FsError> {
    make_pair(fs, &path(alloc, "", old)?, &path(alloc, "", new)?)
}

/// The sample clusters `/o` and `/n` beside the directories of the lines. The call whose number the word is fails.
pub(crate) fn opened(alloc: Global, lines: &str, word: &str) -> Result<MemFs, FsError> {
    let tree = tree(alloc, lines)?;
    let mut fs = over(alloc, tree, word)?;
    pair(alloc, &mut fs, "/o", "/n")?;
    Ok(fs)
}

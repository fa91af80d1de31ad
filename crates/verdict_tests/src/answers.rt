// What is found of the clusters of a block.
use crate::trees::opened;
use fs_mem::MemFs;
use fs_model::{FsError, Path};
use fs_words::{call, check, path};
use shared_inodes::{SharedFiles, shared_files, shared_inode};
use std::alloc::{AllocError, Global};
use verdicts::verdict_of;

fn least(alloc: Global, found: &Option<Path>) -> Result<String, AllocError> {
    match found {
        Some(path) => path.text(),
        None => String::from_str(alloc, "none"),
    }
}

fn files(alloc: Global, found: &SharedFiles) -> Result<String, AllocError> {
    let count = found.count;
    let least = least(alloc, &found.least)?;
    format!(in alloc; "{count} {least}")
}

fn found(
    alloc: Global,
    fs: &mut MemFs,
    call: &str,
    old: &Path,
    new: &Path,
) -> Result<String, FsError> {
    Ok(match call {
        "verdict" => {
            let verdict = verdict_of(alloc, fs, old, new)?;
            format!(in alloc; "{verdict:?}")?
        }
        "files" => files(alloc, &shared_files(alloc, fs, old, new)?)?,
        "inode" => least(alloc, &shared_inode(alloc, fs, old, new)?)?,
        _ => String::from_str(alloc, "no such call")?,
    })
}

fn given(alloc: Global, fs: &mut MemFs, call: &str) -> Result<String, AllocError> {
    match (path(alloc, "", "/o"), path(alloc, "", "/n")) {
        (Ok(old), Ok(new)) => match found(alloc, fs, call, &old, &new) {
            Ok(text) => Ok(text),
            Err(error) => format!(in alloc; "{error:?}"),
        },
        _ => String::from_str(alloc, "no path"),
    }
}

fn wrong_lines(alloc: Global, fs: &mut MemFs, lines: &str) -> Result<String, AllocError> {
    let mut wrong = String::new(alloc);
    for line in lines.lines() {
        let given = given(alloc, fs, call(line))?;
        check(&mut wrong, line, given.as_str())?;
    }
    Ok(wrong)
}

/// What is wrong with a block, or nothing.
pub(crate) fn wrong(alloc: Global, block: &str) -> Result<String, AllocError> {
    let Some((before, after)) = block.split_once("\nfinds") else {
        return String::from_str(alloc, "no block");
    };
    let (word, lines) = after.split_once('\n').unwrap_or((after, ""));
    match opened(alloc, before, word.trim_start()) {
        Ok(mut fs) => wrong_lines(alloc, &mut fs, lines.trim_end()),
        Err(error) => format!(in alloc; "{error}"),
    }
}

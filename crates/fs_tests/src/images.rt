// Calls of a file system in memory: those of every file system, and of what a crash leaves of it.
use crate::called::Called;
use crate::tools::answer;
use fs_mem::{ImageError, MemFs, Pick};
use fs_model::{Bytes, FsError};
use fs_untold::Untold;
use fs_words::{bytes, number};
use std::alloc::{AllocError, Global};

// Which of the changes that wait came onto the disk, as `yes,no`.
fn changes(alloc: Global, word: &str) -> Result<Vec<bool>, FsError> {
    let mut changes = Vec::new(alloc);
    for one in word.split(',') {
        changes.push(one == "yes")?;
    }
    Ok(changes)
}

// The bytes of an inode, as `7:hello`.
fn held(alloc: Global, word: &str) -> Result<(u64, Bytes), FsError> {
    let (inode, text) = word.split_once(':').unwrap_or((word, ""));
    Ok((u64::from(number(inode)?), Bytes::new(bytes(alloc, text)?)))
}

fn all_held(alloc: Global, word: &str) -> Result<Vec<(u64, Bytes)>, FsError> {
    let mut bytes = Vec::new(alloc);
    for one in word.split(',') {
        bytes.push(held(alloc, one)?)?;
    }
    Ok(bytes)
}

fn pick(alloc: Global, words: &str) -> Result<Pick, FsError> {
    let (names, bytes) = words.split_once(' ').unwrap_or((words, ""));
    Ok(Pick::new(changes(alloc, names)?, all_held(alloc, bytes)?))
}

// The image of a moment that the words pick.
fn image(alloc: Global, fs: &MemFs, moment: &str, words: &str) -> Result<MemFs, ImageError> {
    match (number(moment), pick(alloc, words)) {
        (Ok(moment), Ok(pick)) => fs.image(alloc, u64::from(moment), &pick),
        _ => Err(ImageError::OutOfMemory),
    }
}

// A call of the image of a moment: `MOMENT CHANGES BYTES: CALL`.
fn of_image(alloc: Global, fs: &MemFs, words: &str) -> Result<String, AllocError> {
    let (picked, call) = words.split_once(": ").unwrap_or((words, ""));
    let (moment, pick) = picked.split_once(' ').unwrap_or((picked, ""));
    match image(alloc, fs, moment, pick) {
        Ok(mut left) => answer(alloc, &mut left, call),
        Err(error) => format!(in alloc; "{error}"),
    }
}

impl Called for MemFs {
    fn called(&mut self, alloc: Global, line: &str) -> Result<String, AllocError> {
        match line.strip_prefix("image ") {
            Some(words) => of_image(alloc, self, words),
            None => answer(alloc, self, line),
        }
    }
}

impl Called for Untold {
    fn called(&mut self, alloc: Global, line: &str) -> Result<String, AllocError> {
        answer(alloc, self, line)
    }
}

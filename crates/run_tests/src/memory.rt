// Calls of a file system in memory, as lines.
use crate::crashes::{image, is_sound_at_all, is_sound_now};
use crate::runs::{given, truth};
use crate::trees::{are_same, start_of, tree_of};
use fs_mem::MemFs;
use fs_model::{Fs, FsError};
use fs_words::{call, check};
use std::alloc::{AllocError, Global};

// Whether all stands as at the start.
fn is_kept(alloc: Global, fs: &MemFs) -> Result<bool, FsError> {
    Ok(are_same(
        start_of(alloc, fs)?.items(),
        tree_of(alloc, fs)?.items(),
        false,
    ))
}

// A call of what a crash leaves now, with all names and every file torn.
fn of_torn(alloc: Global, fs: &MemFs, call: &str) -> Result<String, AllocError> {
    match image(alloc, fs, fs.moment(), 1) {
        Ok(mut left) => given(alloc, &mut left, call),
        Err(error) => format!(in alloc; "{error}"),
    }
}

fn holds(alloc: Global, fs: &MemFs, call: &str, word: &str) -> Result<bool, FsError> {
    match (call, word) {
        ("kept", "") => is_kept(alloc, fs),
        ("sound", "copy") => is_sound_now(alloc, fs, false),
        ("sound", "link") => is_sound_now(alloc, fs, true),
        ("always_sound", "copy") => is_sound_at_all(alloc, fs, false),
        ("always_sound", "link") => is_sound_at_all(alloc, fs, true),
        _ => Err(FsError::OutOfMemory),
    }
}

fn called(alloc: Global, fs: &mut MemFs, line: &str) -> Result<String, AllocError> {
    let (call, words) = line.split_once(' ').unwrap_or((line, ""));
    match call {
        "torn" => of_torn(alloc, fs, words),
        "kept" | "sound" | "always_sound" => truth(alloc, holds(alloc, fs, call, words)),
        _ => given(alloc, fs, line),
    }
}

/// The lines of a block that give something else than they say, with that.
pub(crate) fn wrong_of_memory(
    alloc: Global,
    fs: &mut MemFs,
    lines: &str,
) -> Result<String, AllocError> {
    let mut wrong = String::new(alloc);
    for line in lines.lines() {
        let given = called(alloc, fs, call(line))?;
        check(&mut wrong, line, given.as_str())?;
    }
    Ok(wrong)
}

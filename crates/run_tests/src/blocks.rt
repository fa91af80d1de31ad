// A block: a line that says what it is about, changes of the pair, which file systems open with it, and calls.
use crate::memory::wrong_of_memory;
use crate::pair::opened;
use crate::runs::wrong_of;
use fs_mem::Failing;
use fs_model::FsError;
use fs_untold::Untold;
use fs_words::{note, number};
use std::alloc::{AllocError, Global};

// The calls, over a file system in memory that fails at these calls.
fn over_memory(
    alloc: Global,
    lines: &str,
    failing: &[Failing],
    calls: &str,
) -> Result<String, FsError> {
    Ok(wrong_of_memory(alloc, &mut opened(alloc, lines, failing)?, calls)?)
}

// The calls, over a file system that finds nothing from the call of a number on.
fn over_untold(alloc: Global, lines: &str, lose: u64, calls: &str) -> Result<String, FsError> {
    let mut fs = Untold::new(opened(alloc, lines, &[])?, lose);
    Ok(wrong_of(alloc, &mut fs, calls)?)
}

fn over_kind(
    alloc: Global,
    lines: &str,
    kind: &str,
    call: u64,
    calls: &str,
) -> Result<String, FsError> {
    match kind {
        "memory" => over_memory(alloc, lines, &[], calls),
        "without" => over_memory(
            alloc,
            lines,
            &[Failing {
                call,
                effect: false,
            }],
            calls,
        ),
        "with" => over_memory(alloc, lines, &[Failing { call, effect: true }], calls),
        "untold" => over_untold(alloc, lines, call, calls),
        _ => Err(FsError::OutOfMemory),
    }
}

// Notes what is wrong over one file system, and which one it is.
fn over_one(
    alloc: Global,
    lines: &str,
    kind: &str,
    call: u64,
    calls: &str,
    wrong: &mut String,
) -> Result<(), AllocError> {
    let which = format!(in alloc; "{kind} {call}")?;
    match over_kind(alloc, lines, kind, call, calls) {
        Ok(found) if found.is_empty() => Ok(()),
        Ok(found) => note(wrong, which.as_str(), found.as_str()),
        Err(_) => note(wrong, which.as_str(), "no file system"),
    }
}

// The first and the last number of a word such as `3-5`; none is never reached.
fn range(word: &str) -> (u64, u64) {
    let (first, last) = word.split_once('-').unwrap_or((word, word));
    match (number(first), number(last)) {
        (Ok(first), Ok(last)) => (u64::from(first), u64::from(last)),
        _ => (0, 0),
    }
}

// The calls over each of the file systems that the words name.
fn over_all(
    alloc: Global,
    lines: &str,
    words: &str,
    calls: &str,
    wrong: &mut String,
) -> Result<(), AllocError> {
    let (kinds, numbers) = words.split_once(' ').unwrap_or((words, "0"));
    let (first, last) = range(numbers);
    for kind in kinds.split(',') {
        for call in first..=last {
            over_one(alloc, lines, kind, call, calls, wrong)?;
        }
    }
    Ok(())
}

/// What is wrong with a block, or nothing.
pub(crate) fn wrong(alloc: Global, block: &str) -> Result<String, AllocError> {
    let mut wrong = String::new(alloc);
    let Some((lines, after)) = block.split_once("\nopens ") else {
        note(&mut wrong, block, "no block")?;
        return Ok(wrong);
    };
    let (words, calls) = after.split_once('\n').unwrap_or((after, ""));
    over_all(alloc, lines, words, calls.trim_end(), &mut wrong)?;
    Ok(wrong)
}

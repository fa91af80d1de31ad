// A block: a line that says what it is about, what stands, which file system opens with it, and calls.
use crate::called::{Called, wrong_lines};
use crate::one_file::one_file;
use crate::trees::opened;
use fs_mem::{MemSink, TreeError};
use fs_model::{Sink, SinkError};
use fs_untold::Untold;
use fs_words::{bytes, note, number, shown};
use std::alloc::{AllocError, Global};

// ---- sinks

fn put(alloc: Global, sink: &mut MemSink, text: &str) -> Result<Result<(), SinkError>, AllocError> {
    Ok(sink.put(&bytes(alloc, text)?))
}

impl Called for MemSink {
    fn called(&mut self, alloc: Global, line: &str) -> Result<String, AllocError> {
        match line.strip_prefix("put ") {
            None => shown(alloc, self.bytes()),
            Some(text) => {
                let given = put(alloc, self, text)?;
                format!(in alloc; "{given:?}")
            }
        }
    }
}

// A sink whose put of this number fails.
fn over_sink(alloc: Global, word: &str, calls: &str) -> Result<String, AllocError> {
    let failing = match number(word) {
        Ok(put) => vec![in alloc; u64::from(put)]?,
        Err(_) => Vec::new(alloc),
    };
    wrong_lines(alloc, &mut MemSink::new(alloc, failing), calls)
}

// ---- file systems

// Where no file system opens, the calls are the one line that says why.
fn unopened(alloc: Global, error: TreeError, calls: &str) -> Result<String, AllocError> {
    let mut wrong = String::new(alloc);
    let said = format!(in alloc; "{error}")?;
    if said.as_str() != calls {
        note(&mut wrong, calls, said.as_str())?;
    }
    Ok(wrong)
}

fn over_memory(
    alloc: Global,
    before: &str,
    words: &str,
    calls: &str,
) -> Result<String, AllocError> {
    match opened(alloc, before, words) {
        Ok(mut fs) => wrong_lines(alloc, &mut fs, calls),
        Err(error) => unopened(alloc, error, calls),
    }
}

// A file system that finds nothing from the call of this number on.
fn over_untold(alloc: Global, before: &str, word: &str, calls: &str) -> Result<String, AllocError> {
    match (opened(alloc, before, ""), number(word)) {
        (Ok(fs), Ok(lose)) => wrong_lines(alloc, &mut Untold::new(fs, u64::from(lose)), calls),
        _ => String::from_str(alloc, "no file system"),
    }
}

fn over_one_file(alloc: Global, words: &str, calls: &str) -> Result<String, AllocError> {
    match one_file(alloc, words) {
        Ok(mut fs) => wrong_lines(alloc, &mut fs, calls),
        Err(_) => String::from_str(alloc, "no file"),
    }
}

// ---- a block

fn of_kind(alloc: Global, before: &str, kind: &str, calls: &str) -> Result<String, AllocError> {
    let (kind, words) = kind.split_once(' ').unwrap_or((kind, ""));
    match kind {
        "memory" => over_memory(alloc, before, words, calls),
        "untold" => over_untold(alloc, before, words, calls),
        "one_file" => over_one_file(alloc, words, calls),
        "sink" => over_sink(alloc, words, calls),
        _ => String::from_str(alloc, "no such kind"),
    }
}

/// What is wrong with a block, or nothing.
pub(crate) fn wrong(alloc: Global, block: &str) -> Result<String, AllocError> {
    let Some((before, after)) = block.split_once("\nopens ") else {
        return String::from_str(alloc, "no block");
    };
    let (kind, calls) = after.split_once('\n').unwrap_or((after, ""));
    of_kind(alloc, before, kind, calls.trim_end())
}

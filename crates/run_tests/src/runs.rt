// Runs of the upgrade, and other calls of any file system, as lines.
use catalog_server::Server;
use failing_server::FailingServer;
use fs_mem::MemSink;
use fs_model::{Fs, FsError, Path};
use fs_words::{call, check, number, path};
use sample_clusters::page_of_two_rows;
use server_profile::ProfileServer;
use std::alloc::{AllocError, Global};
use upgrade_answers::Printed;
use upgrade_run::run;

// ---- runs

fn words_of(alloc: Global, words: &str) -> Result<Vec<String>, AllocError> {
    let mut line = Vec::new(alloc);
    for word in words.split(' ') {
        if !word.is_empty() {
            line.push(String::from_str(alloc, word)?)?;
        }
    }
    Ok(line)
}

// The exit status of a run, and whether its lines were printed.
fn ended<F: Fs, S: Server<F>>(
    alloc: Global,
    fs: &mut F,
    server: &mut S,
    words: &[String],
    out: &mut MemSink,
) -> (u8, Printed) {
    let outcome = run(alloc, words, fs, server, out);
    (outcome.code(), outcome.printed)
}

// The status, why the lines were not printed, if they were not, and what was printed.
fn said(alloc: Global, end: (u8, Printed), bytes: &[u8]) -> Result<String, AllocError> {
    let (code, printed) = end;
    let lines = str::from_utf8(bytes).unwrap_or("no text");
    match printed {
        Printed::Whole => format!(in alloc; "{code} {lines:?}"),
        _ => format!(in alloc; "{code} {printed:?} {lines:?}"),
    }
}

fn told<F: Fs, S: Server<F>>(
    alloc: Global,
    fs: &mut F,
    server: &mut S,
    out: &mut MemSink,
    words: &str,
) -> Result<String, AllocError> {
    let end = ended(alloc, fs, server, &words_of(alloc, words)?, out);
    said(alloc, end, out.bytes())
}

fn ran<F: Fs>(
    alloc: Global,
    fs: &mut F,
    out: &mut MemSink,
    words: &str,
) -> Result<String, AllocError> {
    told(alloc, fs, &mut ProfileServer::new(), out, words)
}

// A run whose put of a number fails.
fn unprinted<F: Fs>(alloc: Global, fs: &mut F, words: &str) -> Result<String, FsError> {
    let (put, words) = words.split_once(' ').unwrap_or((words, ""));
    let puts = vec![in alloc; u64::from(number(put)?)]?;
    Ok(ran(alloc, fs, &mut MemSink::new(alloc, puts), words)?)
}

// A run whose server fails at its call of a number.
fn unserved<F: Fs>(alloc: Global, fs: &mut F, words: &str) -> Result<String, FsError> {
    let (call, words) = words.split_once(' ').unwrap_or((words, ""));
    let fail = Some(u64::from(number(call)?));
    let mut server = FailingServer::new(alloc, ProfileServer::new(), fail);
    let mut out = MemSink::new(alloc, Vec::new(alloc));
    Ok(told(alloc, fs, &mut server, &mut out, words)?)
}

// ---- files of the clusters

// Whether a file has the page of two rows and no more.
fn has_page<F: Fs>(fs: &mut F, file: &Path) -> Result<bool, FsError> {
    let mut bytes = [0u8; 8193];
    let count = fs.read_at(file, 0, &mut bytes)?;
    Ok(bytes.get(..count) == Some(page_of_two_rows().as_slice()))
}

// Whether two files are one inode.
fn is_inode<F: Fs>(fs: &mut F, file: &Path, other: &Path) -> Result<bool, FsError> {
    Ok(fs.stat(file)?.identity == fs.stat(other)?.identity)
}

fn holds<F: Fs>(alloc: Global, fs: &mut F, words: &str) -> Result<bool, FsError> {
    match words.split_once(' ') {
        Some((file, other)) => is_inode(fs, &path(alloc, "", file)?, &path(alloc, "", other)?),
        None => has_page(fs, &path(alloc, "", words)?),
    }
}

// ---- a line

/// A fact in words, or the error's name.
pub(crate) fn truth(alloc: Global, held: Result<bool, FsError>) -> Result<String, AllocError> {
    match held {
        Ok(holds) => format!(in alloc; "{holds}"),
        Err(error) => format!(in alloc; "{error:?}"),
    }
}

fn given_by(alloc: Global, said: Result<String, FsError>) -> Result<String, AllocError> {
    match said {
        Ok(said) => Ok(said),
        Err(error) => format!(in alloc; "{error:?}"),
    }
}

/// What a call gives: a run of the upgrade, what a file holds, or a call of the file system.
pub(crate) fn given<F: Fs>(alloc: Global, fs: &mut F, line: &str) -> Result<String, AllocError> {
    let (call, words) = line.split_once(' ').unwrap_or((line, ""));
    match call {
        "run" => ran(alloc, fs, &mut MemSink::new(alloc, Vec::new(alloc)), words),
        "unprinted" => given_by(alloc, unprinted(alloc, fs, words)),
        "unserved" => given_by(alloc, unserved(alloc, fs, words)),
        "has_page" | "same_inode" => truth(alloc, holds(alloc, fs, words)),
        _ => fs_words::answer(alloc, fs, "", line),
    }
}

/// The lines of a block that give something else than they say, with that.
pub(crate) fn wrong_of<F: Fs>(
    alloc: Global,
    fs: &mut F,
    lines: &str,
) -> Result<String, AllocError> {
    let mut wrong = String::new(alloc);
    for line in lines.lines() {
        let given = given(alloc, fs, call(line))?;
        check(&mut wrong, line, given.as_str())?;
    }
    Ok(wrong)
}

// What the checks answer about the clusters of a block.
use crate::changes::change;
use crate::clusters::opened;
use crate::refusals::{details, name};
use compat_checks::CheckError;
use control_file::{Job, Mode};
use fs_mem::MemFs;
use fs_model::FsError;
use fs_words::{answer, call, check, path};
use server_profile::ProfileServer;
use std::alloc::{AllocError, Global};

fn error(alloc: Global, error: &CheckError) -> Result<String, AllocError> {
    match error {
        CheckError::Refused(refusal) => {
            format!(in alloc; "{}{}", name(refusal), details(alloc, refusal)?)
        }
        CheckError::Fs(root, error) => format!(in alloc; "{error:?} in {}", root.text()?),
        CheckError::Server => String::from_str(alloc, "server"),
        CheckError::Changed(_, change) => format!(in alloc; "{change:?}"),
        CheckError::OutOfMemory => String::from_str(alloc, "no memory"),
    }
}

// ---- checks

fn job(alloc: Global, mode: Mode, old: &str, new: &str) -> Result<Job, FsError> {
    Ok(Job {
        old: path(alloc, "", old)?,
        new: path(alloc, "", new)?,
        mode,
    })
}

// `copy` or `link` of `/o` into `/n`, or `check`, the mode and the two directories.
fn job_of(alloc: Global, line: &str) -> Option<Job> {
    let words = match line {
        "copy" => "copy /o /n",
        "link" => "link /o /n",
        _ => line.strip_prefix("check ")?,
    };
    let (mode, roots) = words.split_once(' ')?;
    let (old, new) = roots.split_once(' ')?;
    match mode {
        "copy" => job(alloc, Mode::Copy, old, new).ok(),
        "link" => job(alloc, Mode::Link, old, new).ok(),
        _ => None,
    }
}

fn checked(alloc: Global, fs: &mut MemFs, job: &Job) -> Result<String, AllocError> {
    let mut server = ProfileServer::new();
    match upgrade_checks::check(alloc, &mut server, fs, job) {
        Ok(_) => String::from_str(alloc, "passed"),
        Err(stop) => error(alloc, &stop),
    }
}

// ---- the lines of a block

fn changed(alloc: Global, fs: &mut MemFs, line: &str) -> Result<String, AllocError> {
    match change(alloc, fs, line) {
        Some(Ok(())) => String::from_str(alloc, "ok"),
        Some(Err(error)) => format!(in alloc; "{error:?}"),
        None => answer(alloc, fs, "", line),
    }
}

fn given(alloc: Global, fs: &mut MemFs, line: &str) -> Result<String, AllocError> {
    match job_of(alloc, line) {
        Some(job) => checked(alloc, fs, &job),
        None => changed(alloc, fs, line),
    }
}

// A line that says no answer is a call that gives `ok`.
fn wrong_lines(alloc: Global, fs: &mut MemFs, lines: &str) -> Result<String, AllocError> {
    let mut wrong = String::new(alloc);
    for line in lines.lines() {
        let given = given(alloc, fs, call(line))?;
        if given.as_str() != "ok" || line.contains(" -> ") {
            check(&mut wrong, line, given.as_str())?;
        }
    }
    Ok(wrong)
}

/// What is wrong with a block, or nothing.
pub(crate) fn wrong(alloc: Global, block: &str) -> Result<String, AllocError> {
    let Some((before, after)) = block.split_once("\nclusters") else {
        return String::from_str(alloc, "no block");
    };
    let (word, lines) = after.split_once('\n').unwrap_or((after, ""));
    match opened(alloc, before, word.trim_start()) {
        Ok(mut fs) => wrong_lines(alloc, &mut fs, lines.trim_end()),
        Err(error) => format!(in alloc; "{error:?}"),
    }
}

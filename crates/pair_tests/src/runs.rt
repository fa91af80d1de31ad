// A run over a pair of clusters.
use crate::rows::rows_in;
use control_file::Release;
use fs_mem::MemSink;
use fs_model::Fs;
use server_profile::ProfileServer;
use std::alloc::Global;
use upgrade_run::run;

// The words of a command line: the directories of the pair, and options with blanks between them.
fn words_of(alloc: Global, top: &str, options: &str) -> Option<Vec<String>> {
    let line = format!(in alloc; "-d {top}/old -D {top}/new {options}").ok()?;
    let mut words = Vec::new(alloc);
    for word in line.split(' ') {
        if !word.is_empty() {
            words.push(String::from_str(alloc, word).ok()?).ok()?;
        }
    }
    Some(words)
}

/// The exit status and the printed lines of a run over the pair in a directory.
pub(crate) fn ran<F: Fs>(alloc: Global, fs: &mut F, top: &str, options: &str) -> Option<String> {
    let words = words_of(alloc, top, options)?;
    let mut out = MemSink::new(alloc, Vec::new(alloc));
    let outcome = run(alloc, &words, fs, &mut ProfileServer::new(), &mut out);
    let lines = str::from_utf8(out.bytes()).ok()?;
    format!(in alloc; "{} {lines}", outcome.code()).ok()
}

// The rows of the cluster of this name.
fn rows<F: Fs>(alloc: Global, fs: &mut F, top: &str, name: &str, release: Release) -> Option<u64> {
    let root = format!(in alloc; "{top}/{name}").ok()?;
    rows_in(alloc, fs, root.as_str(), release)
}

/// What a run over the pair in a directory answers, the rows of the old cluster before it, and those of the new one behind it.
pub(crate) fn answer_over<F: Fs>(
    alloc: Global,
    fs: &mut F,
    top: &str,
    options: &str,
) -> Option<String> {
    let old = rows(alloc, fs, top, "old", Release::V15)?;
    let said = ran(alloc, fs, top, options)?;
    let new = rows(alloc, fs, top, "new", Release::V16)?;
    format!(in alloc; "{said}rows: {old} and {new}").ok()
}

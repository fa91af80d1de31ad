// What is asked of the two clusters of a block.
use crate::carries::carry;
use crate::clusters::clusters;
use crate::texts::{printed, shown, text};
use catalog_server::Server;
use control_file::Release;
use fs_mem::MemFs;
use fs_model::{FsError, Path};
use fs_tools::{make_file, read_all};
use fs_words::{answer, call, check, path};
use server_profile::ProfileServer;
use std::alloc::{AllocError, Global};

// ---- the server

fn read(
    alloc: Global,
    fs: &mut MemFs,
    input: &str,
    server: &mut ProfileServer,
    root: &Path,
) -> Result<String, AllocError> {
    match server.read_catalog(alloc, fs, root, Release::V15) {
        Ok(catalog) => printed(alloc, input, &catalog),
        Err(error) => format!(in alloc; "{error:?}"),
    }
}

fn dump(
    alloc: Global,
    fs: &mut MemFs,
    input: &str,
    server: &mut ProfileServer,
    root: &Path,
) -> Result<String, AllocError> {
    match server.dump(alloc, fs, root, Release::V15) {
        Ok(text) => shown(alloc, input, &text),
        Err(error) => format!(in alloc; "{error:?}"),
    }
}

fn replay(
    alloc: Global,
    fs: &mut MemFs,
    server: &mut ProfileServer,
    root: &Path,
    text: &[u8],
) -> Result<String, AllocError> {
    match server.replay(alloc, fs, root, Release::V16, text) {
        Ok(()) => String::from_str(alloc, "ok"),
        Err(error) => format!(in alloc; "{error:?}"),
    }
}

// ---- files

fn put(alloc: Global, fs: &mut MemFs, at: &Path, text: &[u8]) -> Result<String, FsError> {
    make_file(fs, at, text)?;
    Ok(String::new(alloc))
}

// Puts a text with spaces behind it, as many bytes in all as a word says.
fn fill(
    alloc: Global,
    fs: &mut MemFs,
    input: &str,
    at: &Path,
    words: &str,
) -> Result<String, FsError> {
    let (size, name) = words.split_once(' ').unwrap_or((words, ""));
    let mut bytes = Vec::from_slice(alloc, text(alloc, input, name)?.as_bytes())?;
    bytes.resize(size.parse::<usize>().unwrap_or(0), b' ')?;
    put(alloc, fs, at, &bytes)
}

fn file(alloc: Global, fs: &mut MemFs, input: &str, at: &Path) -> Result<String, FsError> {
    let bytes = read_all(alloc, fs, at)?;
    Ok(shown(alloc, input, &bytes)?)
}

// ---- a line

fn asked(
    alloc: Global,
    fs: &mut MemFs,
    input: &str,
    server: &mut ProfileServer,
    line: (&str, &Path, &str),
) -> Result<String, FsError> {
    match line {
        ("put", at, name) => put(alloc, fs, at, text(alloc, input, name)?.as_bytes()),
        ("fill", at, words) => fill(alloc, fs, input, at, words),
        ("text", at, _) => file(alloc, fs, input, at),
        ("read_catalog", root, _) => Ok(read(alloc, fs, input, server, root)?),
        ("dump", root, _) => Ok(dump(alloc, fs, input, server, root)?),
        (_, root, name) => {
            let text = text(alloc, input, name)?;
            Ok(replay(alloc, fs, server, root, text.as_bytes())?)
        }
    }
}

fn given(
    alloc: Global,
    fs: &mut MemFs,
    input: &str,
    server: &mut ProfileServer,
    line: &str,
) -> Result<String, FsError> {
    let (call, words) = line.split_once(' ').unwrap_or((line, ""));
    match call {
        "put" | "fill" | "text" | "read_catalog" | "dump" | "replay" => {
            let (word, rest) = words.split_once(' ').unwrap_or((words, ""));
            asked(
                alloc,
                fs,
                input,
                server,
                (call, &path(alloc, "", word)?, rest),
            )
        }
        "carry" => carry(alloc, fs, input, words),
        _ => Ok(answer(alloc, fs, "", line)?),
    }
}

fn check_line(
    alloc: Global,
    fs: &mut MemFs,
    input: &str,
    server: &mut ProfileServer,
    line: &str,
    wrong: &mut String,
) -> Result<(), AllocError> {
    match given(alloc, fs, input, server, call(line)) {
        Ok(said) => check(wrong, line, &said),
        Err(error) => check(
            wrong,
            line,
            &format!(in alloc; "the line itself: {error:?}")?,
        ),
    }
}

fn wrong_lines(
    alloc: Global,
    fs: &mut MemFs,
    input: &str,
    server: &mut ProfileServer,
    lines: &str,
) -> Result<String, AllocError> {
    let mut wrong = String::new(alloc);
    for line in lines.lines() {
        if !line.starts_with('#') {
            check_line(alloc, fs, input, server, line, &mut wrong)?;
        }
    }
    Ok(wrong)
}

/// What is wrong with the lines of a block, or nothing.
pub(crate) fn wrong(
    alloc: Global,
    server: &mut ProfileServer,
    input: &str,
    lines: &str,
) -> Result<String, AllocError> {
    match clusters(alloc) {
        Ok(mut fs) => wrong_lines(alloc, &mut fs, input, server, lines),
        Err(_) => Err(AllocError),
    }
}

// What the call of a line gives.
use crate::words::{bytes, number, path, shown};
use fs_model::{Fs, FsError, Path};
use std::alloc::{AllocError, Global};

// ---- calls that read

// The kind, the size and the number of the inode.
fn stat<F: Fs>(alloc: Global, fs: &mut F, at: &Path) -> Result<String, FsError> {
    let stat = fs.stat(at)?;
    let kind = stat.kind;
    let size = stat.size;
    let inode = stat.identity.inode;
    Ok(format!(in alloc; "{kind:?} {size} inode {inode}")?)
}

fn list<F: Fs>(alloc: Global, fs: &mut F, at: &Path) -> Result<String, FsError> {
    let mut said = String::new(alloc);
    for name in &fs.list(alloc, at)? {
        if !said.is_empty() {
            said.push(' ')?;
        }
        said.push_str(name.text())?;
    }
    if said.is_empty() {
        said.push_str("nothing")?;
    }
    Ok(said)
}

// Reads at most 100 bytes.
fn read<F: Fs>(
    alloc: Global,
    fs: &mut F,
    at: &Path,
    from: u32,
    len: u32,
) -> Result<String, FsError> {
    let mut buffer = [0u8; 100];
    let len = 100.min(len as usize);
    let count = fs.read_at(at, u64::from(from), &mut buffer[..len])?;
    Ok(shown(alloc, &buffer[..count])?)
}

fn read_words<F: Fs>(alloc: Global, fs: &mut F, at: &Path, words: &str) -> Result<String, FsError> {
    let (from, len) = words.split_once(' ').unwrap_or((words, "100"));
    read(alloc, fs, at, number(from)?, number(len)?)
}

// The target, without `top`.
fn read_link<F: Fs>(alloc: Global, fs: &mut F, top: &str, at: &Path) -> Result<String, FsError> {
    let text = fs.read_link(alloc, at)?.text()?;
    let below = text.as_str().strip_prefix(top).unwrap_or(text.as_str());
    Ok(String::from_str(alloc, below)?)
}

// ---- calls that change

// Writes at most 100 bytes.
fn write<F: Fs>(fs: &mut F, at: &Path, from: u32, bytes: &[u8]) -> Result<(), FsError> {
    if bytes.len() > 100 {
        return Err(FsError::OutOfMemory);
    }
    fs.write_at(at, u64::from(from), bytes)
}

fn write_words<F: Fs>(alloc: Global, fs: &mut F, at: &Path, words: &str) -> Result<(), FsError> {
    let (from, text) = words.split_once(' ').unwrap_or((words, ""));
    write(fs, at, number(from)?, &bytes(alloc, text)?)
}

fn change_two<F: Fs>(fs: &mut F, call: &str, at: &Path, to: &Path) -> Result<(), FsError> {
    match call {
        "make_symlink" => fs.make_symlink(at, to),
        "link" => fs.link(at, to),
        "rename" => fs.rename(at, to),
        _ => Err(FsError::OutOfMemory),
    }
}

fn change_one<F: Fs>(fs: &mut F, call: &str, at: &Path) -> Result<(), FsError> {
    match call {
        "create" => fs.create(at),
        "make_dir" => fs.make_dir(at),
        "unlink" => fs.unlink(at),
        "remove_dir" => fs.remove_dir(at),
        "sync_file" => fs.sync_file(at),
        "sync_dir" => fs.sync_dir(at),
        _ => Err(FsError::OutOfMemory),
    }
}

fn changed<F: Fs>(
    alloc: Global,
    fs: &mut F,
    top: &str,
    line: (&str, &Path, &str),
) -> Result<(), FsError> {
    match line {
        ("write", at, words) => write_words(alloc, fs, at, words),
        (call, at, "") => change_one(fs, call, at),
        (call, at, to) => change_two(fs, call, at, &path(alloc, top, to)?),
    }
}

// ---- a line

// Reads, or changes and says `ok`.
fn given<F: Fs>(
    alloc: Global,
    fs: &mut F,
    top: &str,
    line: (&str, &Path, &str),
) -> Result<String, FsError> {
    match line {
        ("stat", at, "") => stat(alloc, fs, at),
        ("list", at, "") => list(alloc, fs, at),
        ("read_link", at, "") => read_link(alloc, fs, top, at),
        ("read", at, words) => read_words(alloc, fs, at, words),
        _ => {
            changed(alloc, fs, top, line)?;
            Ok(String::from_str(alloc, "ok")?)
        }
    }
}

// The call of a line with its path and what is behind it.
fn called<F: Fs>(alloc: Global, fs: &mut F, top: &str, line: &str) -> Result<String, FsError> {
    let (call, words) = line.split_once(' ').unwrap_or((line, ""));
    if call == "moment" {
        return Ok(format!(in alloc; "{}", fs.moment())?);
    }
    let (at, rest) = words.split_once(' ').unwrap_or((words, ""));
    given(alloc, fs, top, (call, &path(alloc, top, at)?, rest))
}

/// What the call of a line gives: `ok`, what was read, or the name of the error. The paths of the line are those below `top`.
/// The calls are those of [`Fs`] by their names, as `write PATH FROM TEXT` and `read PATH FROM LENGTH`; at most 100 bytes are
/// read or written. An unknown call gives `OutOfMemory`, which no line expects.
pub fn answer<F: Fs>(
    alloc: Global,
    fs: &mut F,
    top: &str,
    line: &str,
) -> Result<String, AllocError> {
    match called(alloc, fs, top, line) {
        Ok(said) => Ok(said),
        Err(error) => format!(in alloc; "{error:?}"),
    }
}

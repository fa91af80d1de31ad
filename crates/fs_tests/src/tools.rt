// What is done with files, as lines.
use fs_model::{Fs, FsError, Path, Stat};
use fs_tools::{clear_dir, copy_file, make_file, read_all, same_inode, sync_tree, walk};
use fs_words::{bytes, number, path, shown};
use std::alloc::{AllocError, Global};

// ---- trees

// The paths, with a space between them.
fn paths(alloc: Global, items: &[(Path, Stat)]) -> Result<String, AllocError> {
    let mut said = String::new(alloc);
    for item in items {
        if !said.is_empty() {
            said.push(' ')?;
        }
        said.push_str(item.0.text()?.as_str())?;
    }
    Ok(said)
}

fn walked<F: Fs>(alloc: Global, fs: &mut F, top: &Path) -> Result<String, FsError> {
    Ok(paths(alloc, &walk(alloc, fs, top)?)?)
}

fn counted<F: Fs>(alloc: Global, fs: &mut F, top: &Path) -> Result<String, FsError> {
    let count = walk(alloc, fs, top)?.len();
    Ok(format!(in alloc; "{count}")?)
}

fn word(alloc: Global, text: &str) -> Result<String, FsError> {
    Ok(String::from_str(alloc, text)?)
}

// ---- files

fn whole<F: Fs>(alloc: Global, fs: &mut F, at: &Path) -> Result<String, FsError> {
    Ok(shown(alloc, &read_all(alloc, fs, at)?)?)
}

fn made<F: Fs>(alloc: Global, fs: &mut F, at: &Path, text: &str) -> Result<String, FsError> {
    make_file(fs, at, &bytes(alloc, text)?)?;
    word(alloc, "ok")
}

// A file of so many bytes, of which each is the remainder of its place by 251.
fn filled<F: Fs>(alloc: Global, fs: &mut F, at: &Path, size: u32) -> Result<String, FsError> {
    let mut bytes = Vec::new(alloc);
    for place in 0..size {
        bytes.push((place % 251) as u8)?;
    }
    make_file(fs, at, &bytes)?;
    word(alloc, "ok")
}

// How many bytes were copied through this buffer.
fn copied<F: Fs>(
    alloc: Global,
    fs: &mut F,
    from: &Path,
    to: &Path,
    buffer: &mut [u8],
) -> Result<String, FsError> {
    if buffer.is_empty() {
        return word(alloc, "no buffer");
    }
    let count = copy_file(fs, from, to, buffer)?;
    Ok(format!(in alloc; "{count}")?)
}

// The same through a buffer of so many bytes.
fn copied_by<F: Fs>(
    alloc: Global,
    fs: &mut F,
    from: &Path,
    to: &Path,
    size: u32,
) -> Result<String, FsError> {
    let mut buffer = vec![in alloc; 0u8; size as usize]?;
    copied(alloc, fs, from, to, &mut buffer)
}

// The words are the new path, and of how many bytes the buffer is, if it isn't of two.
fn copied_to<F: Fs>(
    alloc: Global,
    fs: &mut F,
    from: &Path,
    words: &str,
) -> Result<String, FsError> {
    let (to, size) = words.split_once(' ').unwrap_or((words, "2"));
    copied_by(alloc, fs, from, &path(alloc, "", to)?, number(size)?)
}

// Whether a file has these bytes.
fn has_bytes<F: Fs>(alloc: Global, fs: &mut F, at: &Path, bytes: &[u8]) -> Result<String, FsError> {
    let is_equal = read_all(alloc, fs, at)?.as_slice() == bytes;
    Ok(format!(in alloc; "{is_equal}")?)
}

// Whether two files have the same bytes.
fn equal<F: Fs>(alloc: Global, fs: &mut F, a: &Path, b: &Path) -> Result<String, FsError> {
    let bytes = read_all(alloc, fs, a)?;
    has_bytes(alloc, fs, b, &bytes)
}

fn compared<F: Fs>(alloc: Global, fs: &mut F, a: &Path, b: &Path) -> Result<String, FsError> {
    let is_same = same_inode(fs, a, b)?;
    Ok(format!(in alloc; "{is_same}")?)
}

// ---- many files

fn make_synced<F: Fs>(fs: &mut F, root: &Path, file: &Path) -> Result<(), FsError> {
    make_file(fs, file, b"hello")?;
    fs.sync_file(file)?;
    fs.sync_dir(root)
}

fn numbered(alloc: Global, number: u32) -> Result<Path, FsError> {
    path(alloc, "", format!(in alloc; "/{number}")?.as_str())
}

// Makes so many files in the root and puts them on the disk, with four calls each.
fn make_many<F: Fs>(alloc: Global, fs: &mut F, count: u32) -> Result<String, FsError> {
    let root = Path::root(alloc);
    for number in 0..count {
        make_synced(fs, &root, &numbered(alloc, number)?)?;
    }
    word(alloc, "ok")
}

// Makes so many empty files in the root.
fn crowd<F: Fs>(alloc: Global, fs: &mut F, count: u32) -> Result<String, FsError> {
    for number in 0..count {
        make_file(fs, &numbered(alloc, number)?, b"")?;
    }
    word(alloc, "ok")
}

// Makes a chain of so many directories, each in the one before.
fn chain<F: Fs>(alloc: Global, fs: &mut F, count: u32) -> Result<String, FsError> {
    let mut at = path(alloc, "", "/a")?;
    for _ in 0..count {
        fs.make_dir(&at)?;
        at = match at.join(&["a"]) {
            Ok(next) => next,
            Err(_) => return Err(FsError::OutOfMemory),
        };
    }
    word(alloc, "ok")
}

// ---- a line

fn of_two<F: Fs>(
    alloc: Global,
    fs: &mut F,
    call: &str,
    at: &Path,
    other: &Path,
) -> Result<String, FsError> {
    match call {
        "equal" => equal(alloc, fs, at, other),
        _ => compared(alloc, fs, at, other),
    }
}

fn of_path<F: Fs>(
    alloc: Global,
    fs: &mut F,
    call: &str,
    at: &Path,
    rest: &str,
) -> Result<String, FsError> {
    match call {
        "walk" => walked(alloc, fs, at),
        "count" => counted(alloc, fs, at),
        "read_all" => whole(alloc, fs, at),
        "make_file" => made(alloc, fs, at, rest),
        "fill" => filled(alloc, fs, at, number(rest)?),
        "copy_file" => copied_to(alloc, fs, at, rest),
        _ => of_two(alloc, fs, call, at, &path(alloc, "", rest)?),
    }
}

fn put<F: Fs>(alloc: Global, fs: &mut F, call: &str, at: &Path) -> Result<String, FsError> {
    match call {
        "sync_tree" => sync_tree(alloc, fs, at)?,
        _ => clear_dir(alloc, fs, at)?,
    }
    word(alloc, "ok")
}

fn called<F: Fs>(alloc: Global, fs: &mut F, call: &str, words: &str) -> Result<String, FsError> {
    let (at, rest) = words.split_once(' ').unwrap_or((words, ""));
    match call {
        "sync_tree" | "clear_dir" => put(alloc, fs, call, &path(alloc, "", at)?),
        "make_many" => make_many(alloc, fs, number(at)?),
        "crowd" => crowd(alloc, fs, number(at)?),
        "chain" => chain(alloc, fs, number(at)?),
        _ => of_path(alloc, fs, call, &path(alloc, "", at)?, rest),
    }
}

fn is_tool(call: &str) -> bool {
    matches!(
        call,
        "walk"
            | "count"
            | "read_all"
            | "make_file"
            | "fill"
            | "copy_file"
            | "equal"
            | "same_inode"
            | "sync_tree"
            | "clear_dir"
            | "make_many"
            | "crowd"
            | "chain"
    )
}

/// What the call of a line gives: of a file system, or of what is done with files.
pub(crate) fn answer<F: Fs>(alloc: Global, fs: &mut F, line: &str) -> Result<String, AllocError> {
    let (call, words) = line.split_once(' ').unwrap_or((line, ""));
    if !is_tool(call) {
        return fs_words::answer(alloc, fs, "", line);
    }
    match called(alloc, fs, call, words) {
        Ok(said) => Ok(said),
        Err(error) => format!(in alloc; "{error:?}"),
    }
}

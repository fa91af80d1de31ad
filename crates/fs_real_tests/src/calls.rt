// Calls of a file system, and their answers in words.
use fs_model::{Fs, FsError, Name, Path, Stat};
use std::alloc::Global;
use std::test::Fail;

/// A call of a path. Reads and writes have the place in the file, in bytes.
pub enum Call<'r> {
    Stat,
    List,
    /// So many bytes.
    Read(u32, usize),
    ReadLink,
    Create,
    Write(u32, &'r str),
    MakeDir,
    MakeSymlink(&'r str),
    Link(&'r str),
    Rename(&'r str),
    Unlink,
    RemoveDir,
    SyncFile,
    SyncDir,
}

/// A path, a call of it, and the answer that is wanted, in words.
pub struct Row<'r>(pub &'r str, pub Call<'r>, pub &'r str);

// The second path of a call; the root where it has none.
fn other<'r>(call: &Call<'r>) -> &'r str {
    match call {
        Call::MakeSymlink(to) | Call::Link(to) | Call::Rename(to) => to,
        _ => "/",
    }
}

// Writes a text of at most 16 bytes.
fn written<F: Fs>(fs: &mut F, at: &Path, from: u32, text: &str) -> Result<(), FsError> {
    if text.len() > 16 {
        return Err(FsError::Failed);
    }
    fs.write_at(at, u64::from(from), text.as_bytes())
}

// The calls that answer nothing.
fn changed<F: Fs>(fs: &mut F, call: &Call<'_>, at: &Path, to: &Path) -> Result<(), FsError> {
    match call {
        Call::Create => fs.create(at),
        Call::Write(from, text) => written(fs, at, *from, text),
        Call::MakeDir => fs.make_dir(at),
        Call::MakeSymlink(_) => fs.make_symlink(at, to),
        Call::Link(_) => fs.link(at, to),
        Call::Rename(_) => fs.rename(at, to),
        Call::Unlink => fs.unlink(at),
        Call::RemoveDir => fs.remove_dir(at),
        Call::SyncFile => fs.sync_file(at),
        Call::SyncDir => fs.sync_dir(at),
        _ => Err(FsError::Failed),
    }
}

// An answer of a call that answers nothing, in words.
fn word(answer: Result<(), FsError>) -> &'static str {
    match answer {
        Ok(()) => "done",
        Err(FsError::NotFound) => "NotFound",
        Err(FsError::Exists) => "Exists",
        Err(FsError::NotDir) => "NotDir",
        Err(FsError::WrongKind) => "WrongKind",
        Err(FsError::NotEmpty) => "NotEmpty",
        Err(FsError::CrossDevice) => "CrossDevice",
        Err(FsError::CrossDir) => "CrossDir",
        Err(FsError::Failed) => "Failed",
        Err(FsError::OutOfMemory) => "OutOfMemory",
    }
}

fn is_stat<F: Fs>(alloc: Global, fs: &mut F, at: &Path, want: &str) -> Result<bool, Fail> {
    let stat = match fs.stat(at) {
        Ok(stat) => stat,
        Err(error) => return Ok(word(Err(error)) == want),
    };
    let Stat {
        kind,
        size,
        identity,
    } = stat;
    let inode = identity.inode;
    Ok(format!(in alloc; "{kind:?} {size} inode {inode}")?.as_str() == want)
}

// Whether these names are the words of a text.
fn are_words(names: &[Name], want: &str) -> bool {
    if names.is_empty() {
        return want == "nothing";
    }
    let mut words = want.split(' ');
    for name in names {
        if words.next() != Some(name.text()) {
            return false;
        }
    }
    words.next().is_none()
}

fn is_list<F: Fs>(alloc: Global, fs: &mut F, at: &Path, want: &str) -> bool {
    match fs.list(alloc, at) {
        Ok(names) => are_words(&names, want),
        Err(error) => word(Err(error)) == want,
    }
}

fn is_read<F: Fs>(fs: &mut F, at: &Path, from: u32, len: usize, want: &str) -> bool {
    let mut bytes = [0u8; 16];
    let len = len.min(16);
    match fs.read_at(at, u64::from(from), &mut bytes[..len]) {
        Ok(count) => &bytes[..count] == want.as_bytes(),
        Err(error) => word(Err(error)) == want,
    }
}

// Whether a path reads as a text.
fn is_text(path: &Path, text: &str) -> Result<bool, Fail> {
    Ok(path.text()?.as_str() == text)
}

fn is_link<F: Fs>(
    alloc: Global,
    fs: &mut F,
    at: &Path,
    top: &str,
    want: &str,
) -> Result<bool, Fail> {
    match fs.read_link(alloc, at) {
        Ok(target) => is_text(&target, format!(in alloc; "{top}{want}")?.as_str()),
        Err(error) => Ok(word(Err(error)) == want),
    }
}

// A path below a top, which has no slash at its end.
fn below(alloc: Global, top: &str, at: &str) -> Result<Path, Fail> {
    Ok(Path::parse(alloc, format!(in alloc; "{top}{at}")?.as_str())?)
}

fn is_done<F: Fs>(fs: &mut F, call: &Call<'_>, at: &Path, to: &Path, want: &str) -> bool {
    word(changed(fs, call, at, to)) == want
}

// Whether a call of a path below a top gives the answer that is wanted.
fn gives<F: Fs>(alloc: Global, fs: &mut F, top: &str, row: &Row<'_>) -> Result<bool, Fail> {
    let Row(at, call, want) = row;
    let at = below(alloc, top, at)?;
    match call {
        Call::Stat => is_stat(alloc, fs, &at, want),
        Call::List => Ok(is_list(alloc, fs, &at, want)),
        Call::Read(from, len) => Ok(is_read(fs, &at, *from, *len, want)),
        Call::ReadLink => is_link(alloc, fs, &at, top, want),
        _ => Ok(is_done(fs, call, &at, &below(alloc, top, other(call))?, want)),
    }
}

/// How many of the calls, from the first on, give the answers that are wanted.
pub fn right<F: Fs>(alloc: Global, fs: &mut F, top: &str, rows: &[Row<'_>]) -> Result<usize, Fail> {
    for (count, row) in rows.iter().enumerate() {
        if !gives(alloc, fs, top, row)? {
            return Ok(count);
        }
    }
    Ok(rows.len())
}

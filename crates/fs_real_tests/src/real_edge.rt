// The real disk, in a folder of its own below the working directory.
use crate::calls::{Call, Row, right};
use fs_model::{Fs, FsError, Path};
use fs_real::RealFs;
use std::alloc::Global;
use std::os::unix::fs::{MetadataExt, symlink};
use std::process::Abort;
use std::rt::{Env, Files};
use std::test::Fail;
use std::{fs, process, str};

// How often a file is removed and made again until the system gives the new one the inode of the old one.
const TRIES: u16 = 64;

// Calls below the folder, in order.
static ROWS: [Row<'static>; 65] = [
    Row("", Call::MakeDir, "done"),
    Row("/file", Call::Create, "done"),
    Row("/file", Call::Write(2, "proved"), "done"),
    Row("/file", Call::Read(0, 16), "\0\0proved"),
    Row("/file", Call::Read(9, 16), ""),
    Row("/file", Call::Write(12, ""), "done"),
    Row("/file", Call::Stat, "File 12 inode 1"),
    Row("/file", Call::Read(0, 16), "\0\0proved\0\0\0\0"),
    Row("/file", Call::SyncFile, "done"),
    Row("/directory", Call::MakeDir, "done"),
    Row("", Call::SyncDir, "done"),
    Row("/a", Call::Create, "done"),
    Row("/file", Call::SyncFile, "done"),
    Row("", Call::List, "a directory file"),
    Row("/directory", Call::List, "nothing"),
    Row("/file", Call::Rename("/first"), "done"),
    Row("/file", Call::Stat, "NotFound"),
    Row("/first", Call::Link("/second"), "done"),
    Row("/first", Call::Stat, "File 12 inode 1"),
    Row("/second", Call::Stat, "File 12 inode 1"),
    Row("/second", Call::Write(0, "is"), "done"),
    Row("/first", Call::Read(0, 8), "isproved"),
    Row("/first", Call::Unlink, "done"),
    Row("/second", Call::Read(0, 4), "ispr"),
    Row("/second", Call::Unlink, "done"),
    Row("/second", Call::Read(0, 4), "NotFound"),
    Row("/first", Call::Create, "done"),
    Row("/first", Call::Stat, "File 0 inode 2"),
    Row("/link", Call::MakeSymlink("/first"), "done"),
    Row("/link", Call::ReadLink, "/first"),
    Row("/link", Call::Stat, "Sym 0 inode 0"),
    Row("/link/first", Call::Stat, "NotDir"),
    Row("/link/first", Call::Create, "NotDir"),
    Row("/link", Call::List, "NotDir"),
    Row("/link", Call::SyncDir, "NotDir"),
    Row("/link", Call::Read(0, 1), "WrongKind"),
    Row("/link", Call::Write(0, "a"), "WrongKind"),
    Row("/link", Call::SyncFile, "WrongKind"),
    Row("/link", Call::Link("/free"), "WrongKind"),
    Row("/link", Call::Unlink, "done"),
    Row("/link", Call::Stat, "NotFound"),
    Row("/first", Call::Stat, "File 0 inode 2"),
    Row("/first", Call::Create, "Exists"),
    Row("/first", Call::MakeDir, "Exists"),
    Row("/first", Call::MakeSymlink("/a"), "Exists"),
    Row("/first", Call::Link("/first"), "Exists"),
    Row("/first", Call::Rename("/first"), "Exists"),
    Row("/free", Call::Rename("/first"), "NotFound"),
    Row("/free", Call::Unlink, "NotFound"),
    Row("/free", Call::RemoveDir, "NotFound"),
    Row("/free/below", Call::Create, "NotFound"),
    Row("/free", Call::SyncFile, "NotFound"),
    Row("/free", Call::SyncDir, "NotFound"),
    Row("/free", Call::List, "NotFound"),
    Row("", Call::Read(0, 1), "WrongKind"),
    Row("", Call::Write(0, "a"), "WrongKind"),
    Row("", Call::SyncFile, "WrongKind"),
    Row("", Call::Unlink, "WrongKind"),
    Row("/first", Call::ReadLink, "WrongKind"),
    Row("/first", Call::RemoveDir, "NotDir"),
    Row("/first/below", Call::Stat, "NotDir"),
    Row("/directory", Call::Rename("/free"), "WrongKind"),
    Row("/first", Call::Rename("/directory/inner"), "CrossDir"),
    Row("/free", Call::Rename("/directory/inner"), "CrossDir"),
    Row("", Call::RemoveDir, "NotEmpty"),
];

// Calls of the root, which stands and stays, and of a device, which is no kind of file that is known.
static ROOT: [Row<'static>; 9] = [
    Row("/", Call::Stat, "Dir 0 inode 0"),
    Row("/", Call::Create, "Exists"),
    Row("/", Call::MakeDir, "Exists"),
    Row("/", Call::MakeSymlink("/"), "Exists"),
    Row("/", Call::Link("/"), "WrongKind"),
    Row("/", Call::Rename("/"), "CrossDir"),
    Row("/", Call::Unlink, "WrongKind"),
    Row("/", Call::RemoveDir, "NotEmpty"),
    Row("/dev/null", Call::Stat, "Failed"),
];

// All of it is removed again.
static REMOVED: [Row<'static>; 7] = [
    Row("/a", Call::Unlink, "done"),
    Row("/first", Call::Unlink, "done"),
    Row("/relative", Call::Unlink, "done"),
    Row("/directory", Call::RemoveDir, "done"),
    Row("", Call::List, "nothing"),
    Row("", Call::RemoveDir, "done"),
    Row("", Call::Stat, "NotFound"),
];

// The system's number of a file's inode, and the rights of its owner and others.
fn seen(rt: &impl Files, path: &str) -> Result<(u64, u32), Fail> {
    let found = fs::symlink_metadata(rt, path)?;
    Ok((found.ino(), found.mode() & 0o777))
}

// What is made is its owner's alone.
fn are_private(rt: &impl Files, alloc: Global, top: &str) -> Result<bool, Fail> {
    let (_, of_dir) = seen(rt, top)?;
    let (_, of_file) = seen(rt, format!(in alloc; "{top}/a")?.as_str())?;
    Ok(of_dir == 0o700 && of_file == 0o600)
}

// A file that is made in place of one that is removed: the system's numbers of both, and whether they are two here.
fn replaced<F: Fs>(
    rt: &impl Files,
    fs: &mut F,
    at: &Path,
    text: &str,
) -> Result<(u64, u64, bool), Fail> {
    let (first, _) = seen(rt, text)?;
    let before = fs.stat(at)?.identity;
    fs.unlink(at)?;
    fs.create(at)?;
    let (second, _) = seen(rt, text)?;
    Ok((first, second, fs.stat(at)?.identity != before))
}

// Whether a file has another number here than one that was removed and had its inode. Each try is four calls.
fn is_new<F: Fs>(rt: &impl Files, alloc: Global, fs: &mut F, top: &str) -> Result<bool, Fail> {
    let text = format!(in alloc; "{top}/a")?;
    let at = Path::parse(alloc, text.as_str())?;
    for _ in 0..TRIES {
        let (first, second, differ) = replaced(rt, fs, &at, text.as_str())?;
        if !differ || first == second {
            return Ok(differ);
        }
    }
    Ok(true)
}

// A directory of too many names on its way.
fn is_too_deep<F: Fs>(alloc: Global, fs: &mut F) -> Result<bool, Fail> {
    let mut text = String::new(alloc);
    for _ in 0..4096u16 {
        text.push_str("/a")?;
    }
    let deep = Path::parse(alloc, text.as_str())?;
    Ok(fs.list(alloc, &deep).err() == Some(FsError::Failed))
}

// Whether a link whose target is no path fails to be read.
fn is_relative<F: Fs>(rt: &impl Files, alloc: Global, fs: &mut F, top: &str) -> Result<bool, Fail> {
    let text = format!(in alloc; "{top}/relative")?;
    symlink(rt, "first", text.as_str())?;
    let at = Path::parse(alloc, text.as_str())?;
    Ok(fs.read_link(alloc, &at).err() == Some(FsError::Failed))
}

// The rows of the folder and of the root, and what no row says.
fn holds<F: Fs>(
    rt: &(impl Abort + Files),
    alloc: Global,
    fs: &mut F,
    top: &str,
) -> Result<(), Fail> {
    let rows = right(alloc, fs, top, &ROWS)?;
    assert!(rt; rows == ROWS.len(), "row {rows}");
    let rows = right(alloc, fs, "", &ROOT)?;
    assert!(rt; rows == ROOT.len(), "row {rows} of the root");
    assert!(rt; fs.moment() == (ROWS.len() + ROOT.len()) as u64);
    assert!(rt; are_private(rt, alloc, top)?);
    assert!(rt; is_new(rt, alloc, fs, top)?);
    assert!(rt; is_too_deep(alloc, fs)?);
    assert!(rt; is_relative(rt, alloc, fs, top)?);
    let rows = right(alloc, fs, top, &REMOVED)?;
    assert!(rt; rows == REMOVED.len(), "row {rows} at the end");
    Ok(())
}

// The folder, by its text.
fn folder(rt: &impl Env, alloc: Global, id: u32) -> Result<String, Fail> {
    let mut buffer = [0u8; 4096];
    let length = rt.current_dir(&mut buffer)?;
    let here = str::from_utf8(&buffer[..length.min(4096)])?;
    Ok(format!(in alloc; "{here}/real_edge_{id}")?)
}

#[test]
fn real_edge(rt: HostRuntime) -> Result<(), Fail> {
    let alloc = rt.alloc();
    let top = folder(&rt, alloc, process::id(rt.process()))?;
    holds(&rt, alloc, &mut RealFs::new(&rt, alloc), top.as_str())
}

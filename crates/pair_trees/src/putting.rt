// Putting a tree, entry by entry.
use cluster_gen::make;
use fs_mem::{Entry, Tree};
use fs_model::{Fs, FsError, Path};
use std::alloc::Global;

// The path of a tree, below a directory.
fn below(dir: &Path, path: &Path) -> Option<Path> {
    let mut place = dir.copy().ok()?;
    for name in path.names() {
        place = place.child(name).ok()?;
    }
    Some(place)
}

fn put_file<F: Fs>(fs: &mut F, file: &Path, bytes: &[u8]) -> Result<(), FsError> {
    fs.create(file)?;
    if !bytes.is_empty() {
        fs.write_at(file, 0, bytes)?;
    }
    fs.sync_file(file)
}

fn put_entry<F: Fs>(fs: &mut F, place: &Path, entry: &Entry) -> Result<(), FsError> {
    match entry {
        Entry::Dir { .. } => fs.make_dir(place),
        Entry::File { bytes, .. } => put_file(fs, place, bytes.bytes()),
        Entry::Sym(target) => fs.make_symlink(place, target),
    }
}

fn pair(alloc: Global, tables: u64) -> Option<Tree> {
    make(alloc, tables).ok()?.tree(alloc).ok()
}

/// Makes the clusters `old` and `new`, the old one with so many tables, at most 200, in a directory that stands, and syncs
/// their files. `None` where a call failed, memory lacked, or more tables are asked for.
pub fn put_pair<F: Fs>(alloc: Global, fs: &mut F, dir: &Path, tables: u64) -> Option<()> {
    for (path, entry) in pair(alloc, tables)?.items() {
        let place = below(dir, path)?;
        put_entry(fs, &place, entry).ok()?;
    }
    Some(())
}

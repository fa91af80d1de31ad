// Trees compared. The paths of a tree ascend, so that all of `/old` is behind all of `/new`.
use fs_mem::{Entry, MemFs, Pick, Tree};
use fs_model::{FsError, Path};
use fs_words::path;
use std::alloc::Global;

fn same_entry(entry: &Entry, other: &Entry) -> bool {
    match (entry, other) {
        (Entry::Dir { device }, Entry::Dir { device: other }) => device == other,
        (
            Entry::File { inode, bytes },
            Entry::File {
                inode: other,
                bytes: others,
            },
        ) => inode == other && bytes.bytes() == others.bytes(),
        (Entry::Sym(target), Entry::Sym(other)) => target == other,
        _ => false,
    }
}

fn last_name(path: &Path) -> &str {
    match path.names().last() {
        Some(name) => name.text(),
        None => "",
    }
}

// Whether a path is the other one, or, where the control file may be renamed, its later name.
fn same_path(path: &Path, other: &Path, renames: bool) -> bool {
    path == other
        || (renames
            && last_name(path) == "pg_control"
            && last_name(other) == "pg_control.old"
            && path.parent().ok() == other.parent().ok())
}

/// Whether both lists have the same entries, and some; with `renames` a control file may have its later name in the other.
/// Of a mark the bytes aren't compared: it tells by standing.
pub(crate) fn are_same(entries: &[(Path, Entry)], others: &[(Path, Entry)], renames: bool) -> bool {
    let each = entries.iter().zip(others).all(|(entry, other)| same_path(
        &entry.0, &other.0, renames,
    ) && (last_name(&entry.0) == "done" || same_entry(&entry.1, &other.1)));
    each && entries.len() == others.len() && !entries.is_empty()
}

/// The entries of the new cluster and those of the old one, which begin at `/old`.
pub(crate) fn both<'a>(tree: &'a Tree, old: &Path) -> (&'a [(Path, Entry)], &'a [(Path, Entry)]) {
    let entries = tree.items();
    match entries.iter().position(|(path, _)| path.is_under(old)) {
        Some(place) => entries.split_at_checked(place).unwrap_or((entries, &[])),
        None => (entries, &[]),
    }
}

/// Whether an entry stands at a path of this last name.
pub(crate) fn has_name(entries: &[(Path, Entry)], name: &str) -> bool {
    entries.iter().any(|(path, _)| last_name(path) == name)
}

fn inode_of(entry: &Entry) -> Option<u64> {
    match entry {
        Entry::File { inode, .. } => Some(*inode),
        _ => None,
    }
}

/// Whether an inode has a path in both lists. There is one device.
pub(crate) fn share(entries: &[(Path, Entry)], others: &[(Path, Entry)]) -> bool {
    entries.iter().any(|(_, entry)| {
        let inode = inode_of(entry);
        inode.is_some() && others.iter().any(|(_, other)| inode_of(other) == inode)
    })
}

/// What stands now.
pub(crate) fn tree_of(alloc: Global, fs: &MemFs) -> Result<Tree, FsError> {
    match fs.tree(alloc) {
        Ok(tree) => Ok(tree),
        Err(_) => Err(FsError::OutOfMemory),
    }
}

// The file system as it opened: all that stood was on the disk, so that the image of its first moment has it.
fn reopened(alloc: Global, fs: &MemFs) -> Result<MemFs, FsError> {
    match fs.image(alloc, 0, &Pick::new(Vec::new(alloc), Vec::new(alloc))) {
        Ok(first) => Ok(first),
        Err(_) => Err(FsError::OutOfMemory),
    }
}

/// What stood when the file system opened.
pub(crate) fn start_of(alloc: Global, fs: &MemFs) -> Result<Tree, FsError> {
    tree_of(alloc, &reopened(alloc, fs)?)
}

/// The old cluster's directory.
pub(crate) fn old_dir(alloc: Global) -> Result<Path, FsError> {
    path(alloc, "", "/old")
}

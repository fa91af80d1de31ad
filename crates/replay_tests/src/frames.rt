// What may stand behind a replay, or what a crash leaves of it.
use fs_mem::{Entry, MemFs, Pick};
use fs_model::{Fs, Path};
use std::alloc::Global;

/// What stood at the start, where something else may stand later, and which of the things that crashes may leave are looked at.
#[derive(Clone, Copy)]
pub(crate) struct Frame<'a> {
    pub(crate) start: &'a [(Path, Entry)],
    pub(crate) listed: &'a [Path],
    pub(crate) picks: &'a [Pick],
}

fn same_entry(entry: &Entry, other: &Entry) -> bool {
    match (entry, other) {
        (Entry::Dir { device }, Entry::Dir { device: other }) => device == other,
        (
            Entry::File { inode, bytes },
            Entry::File {
                inode: other,
                bytes: others,
            },
        ) => inode == other && bytes.bytes() == others.bytes(),
        (Entry::Sym(target), Entry::Sym(other)) => target == other,
        _ => false,
    }
}

fn has(entries: &[(Path, Entry)], item: &(Path, Entry)) -> bool {
    entries.iter().any(|(path, entry)| *path == item.0 && same_entry(entry, &item.1))
}

fn inode_of(entry: &Entry) -> Option<u64> {
    match entry {
        Entry::File { inode, .. } => Some(*inode),
        _ => None,
    }
}

// Whether it is no file of one of these entries.
fn is_new(entries: &[(Path, Entry)], entry: &Entry) -> bool {
    let inode = inode_of(entry);
    inode.is_none() || entries.iter().all(|(_, other)| inode_of(other) != inode)
}

fn is_listed(listed: &[Path], path: &Path) -> bool {
    listed.iter().any(|one| one == path)
}

// Whether an entry stood at the start, or is a new one at a listed path.
fn may_stand(item: &(Path, Entry), frame: Frame<'_>) -> bool {
    has(frame.start, item) || (is_listed(frame.listed, &item.0) && is_new(frame.start, &item.1))
}

// Whether each entry may stand, and all that stood at no listed path stands.
fn is_framed(entries: &[(Path, Entry)], frame: Frame<'_>) -> bool {
    let each = entries.iter().all(|item| may_stand(item, frame));
    let kept = frame.start.iter().all(|item| is_listed(frame.listed, &item.0)
        || has(entries, item));
    each && kept
}

fn stands_framed(alloc: Global, fs: &MemFs, frame: Frame<'_>) -> bool {
    match fs.tree(alloc) {
        Ok(tree) => is_framed(tree.items(), frame),
        Err(_) => false,
    }
}

fn leaves_framed(alloc: Global, fs: &MemFs, moment: u64, pick: &Pick, frame: Frame<'_>) -> bool {
    match fs.image(alloc, moment, pick) {
        Ok(left) => stands_framed(alloc, &left, frame),
        Err(_) => false,
    }
}

// Whether each image of a moment has the frame.
fn is_framed_at(alloc: Global, fs: &MemFs, moment: u64, frame: Frame<'_>) -> bool {
    frame
        .picks
        .iter()
        .all(|pick| leaves_framed(alloc, fs, moment, pick, frame))
}

/// Whether each image of each moment has the frame, and what stands at the end.
pub(crate) fn is_framed_always(alloc: Global, fs: &MemFs, frame: Frame<'_>) -> bool {
    let each = (0..=fs.moment()).all(|moment| is_framed_at(alloc, fs, moment, frame));
    each && stands_framed(alloc, fs, frame)
}

/// The same of the last moment alone.
pub(crate) fn is_framed_now(alloc: Global, fs: &MemFs, frame: Frame<'_>) -> bool {
    is_framed_at(alloc, fs, fs.moment(), frame) && stands_framed(alloc, fs, frame)
}

// What a crash leaves of both clusters.
use crate::trees::{are_same, both, has_name, old_dir, share, start_of, tree_of};
use fs_mem::{ImageError, MemFs, Pick, Tree};
use fs_model::{Bytes, Fs, FsError, Path};
use std::alloc::{AllocError, Global};

// The inodes whose bytes a pick names: those of both clusters, and those that a run makes.
const INODES: u64 = 100;

// More changes than ever wait in one of these runs.
const CHANGES: usize = 100;

fn torn(alloc: Global) -> Result<Vec<(u64, Bytes)>, AllocError> {
    let mut bytes = Vec::new(alloc);
    for inode in 0..INODES {
        bytes.push((inode, Bytes::new(b"torn".to_vec(alloc)?)))?;
    }
    Ok(bytes)
}

// The changes that wait whose place is a multiple of `step`, or none, where that is 0.
fn changes(alloc: Global, step: usize) -> Result<Vec<bool>, AllocError> {
    let mut changes = Vec::new(alloc);
    for place in 0..CHANGES {
        changes.push(step != 0 && place % step == 0)?;
    }
    Ok(changes)
}

fn pick(alloc: Global, step: usize) -> Result<Pick, AllocError> {
    Ok(Pick::new(changes(alloc, step)?, torn(alloc)?))
}

/// What a crash leaves of a moment: of the changes that wait each `step`-th, and of every file that waits the word `torn`.
pub(crate) fn image(
    alloc: Global,
    fs: &MemFs,
    moment: u64,
    step: usize,
) -> Result<MemFs, ImageError> {
    fs.image(alloc, moment, &pick(alloc, step)?)
}

// What stood at the start, what stands at the end, and the old cluster's directory.
#[derive(Clone, Copy)]
struct Ends<'a> {
    start: &'a Tree,
    end: &'a Tree,
    old: &'a Path,
    links: bool,
}

// Whether the old cluster has what it had at the start, but for the control file's name where a run links; whether the
// clusters share no inode while the old one has its control file; and whether the mark, where it stands, stands with all that
// the new cluster has at the end.
fn is_sound(tree: &Tree, ends: &Ends<'_>) -> bool {
    let (new, old) = both(tree, ends.old);
    let is_kept = are_same(both(ends.start, ends.old).1, old, ends.links);
    let is_apart = !has_name(old, "pg_control") || !share(new, old);
    let is_whole = !has_name(new, "done") || are_same(both(ends.end, ends.old).0, new, false);
    is_kept && is_apart && is_whole
}

fn leaves_sound(
    alloc: Global,
    image: Result<MemFs, ImageError>,
    ends: &Ends<'_>,
) -> Result<bool, FsError> {
    match image {
        Ok(left) => Ok(is_sound(&tree_of(alloc, &left)?, ends)),
        Err(_) => Err(FsError::OutOfMemory),
    }
}

// The same of each image at a moment: none of the changes that wait, all, each second and each third.
fn is_sound_at(alloc: Global, fs: &MemFs, moment: u64, ends: &Ends<'_>) -> Result<bool, FsError> {
    for step in 0..4 {
        if !leaves_sound(alloc, image(alloc, fs, moment, step), ends)? {
            return Ok(false);
        }
    }
    Ok(true)
}

// The same of each moment from one on up to the state behind the last call, and of that state itself.
fn is_sound_from(alloc: Global, fs: &MemFs, first: u64, ends: &Ends<'_>) -> Result<bool, FsError> {
    for moment in first..=fs.moment() {
        if !is_sound_at(alloc, fs, moment, ends)? {
            return Ok(false);
        }
    }
    Ok(is_sound(ends.end, ends))
}

fn is_sound_since(alloc: Global, fs: &MemFs, first: u64, links: bool) -> Result<bool, FsError> {
    let ends = Ends {
        start: &start_of(alloc, fs)?,
        end: &tree_of(alloc, fs)?,
        old: &old_dir(alloc)?,
        links,
    };
    is_sound_from(alloc, fs, first, &ends)
}

/// Whether both clusters are sound after a crash at each moment.
pub(crate) fn is_sound_at_all(alloc: Global, fs: &MemFs, links: bool) -> Result<bool, FsError> {
    is_sound_since(alloc, fs, 0, links)
}

/// Whether both clusters are sound after a crash now.
pub(crate) fn is_sound_now(alloc: Global, fs: &MemFs, links: bool) -> Result<bool, FsError> {
    is_sound_since(alloc, fs, fs.moment(), links)
}

// What a crash leaves of the parts of a state.
ghost use Rattle.std.specs.Prelude.{◌≡◌, IfOk, OnOk};
ghost use Rattle.std.specs.List.{AllByRecursion};
ghost use Rattle.std.specs.Ordering.{nat_cmp};
ghost use Rattle.std.specs.FinMap as map;
ghost use Rattle.std.specs.Option.{option_copied};
ghost use Rattle.fs_model.specs.Calls.{AreBytes};
ghost use Rattle.fs_model.specs.Crash.{reached, is_reached};
ghost use Rattle.fs_model.specs.Effects.{all_changed, bytes_of};
ghost use Rattle.fs_state.specs.Images.{chosen, left_bytes, with_all};

use crate::contents::{bytes_in, bytes_of_slice};
use crate::names::change_names;
use crate::refusing::test_way;
use fs_maps::{InodeMap, PathMap};
use fs_model::{Bytes, FsError, NameChange, Node, Path};
use std::alloc::{AllocError, Global};

// Whether each proper prefix is a directory.
fn is_on_way(alloc: Global, names: &PathMap<Node>, at: &Path) -> Result<bool, AllocError>
    ensures { IfOk result (λ yes. yes ≡ is_reached names.now at.now) }
{
    match test_way(alloc, names, at) {
        Ok(()) => Ok(true),
        Err(FsError::OutOfMemory) => Err(AllocError),
        Err(_) => Ok(false),
    }
}

/// The names without those that are not reached.
pub(crate) fn reached_names(
    alloc: Global,
    names: &PathMap<Node>,
) -> Result<PathMap<Node>, AllocError>
    ensures { IfOk result (λ left. left ≡ reached names.now) }
{
    let paths = names.paths(alloc)?;
    let mut left = names.copy()?;
    for at in &paths {
        if !is_on_way(alloc, names, at)? {
            left.remove(at);
        }
    }
    Ok(left)
}

/// Puts the changes that are picked into the names.
pub(crate) fn change_picked(
    names: &mut PathMap<Node>,
    pending: &[NameChange],
    picks: &[bool],
) -> Result<(), AllocError>
    ensures { OnOk result (names.new ≡ all_changed names.old (chosen pending.now picks.now)) }
{
    let mut rest = picks;
    for change in pending {
        match rest {
            [pick, after @ ..] => {
                if *pick {
                    change_names(names, change)?;
                }
                rest = after;
            }
            [] => {}
        }
    }
    Ok(())
}

// The bytes that are named first for an inode.
fn named_bytes(named: &[(u64, Bytes)], inode: u64) -> Option<&Bytes>
    ensures { option_copied result ≡ map.find nat_cmp inode named.now }
{
    for (other, bytes) in named {
        if *other == inode {
            return Some(bytes);
        }
    }
    None
}

// The bytes that an inode is left with that was not on the disk.
fn bytes_left(
    alloc: Global,
    now: &InodeMap<Bytes>,
    named: &[(u64, Bytes)],
    inode: u64,
) -> Result<Bytes, AllocError>
    ensures value { IfOk result (λ bytes. bytes ≡ left_bytes now.now named.now inode) }
    ensures bytes { IfOk result AreBytes }
{
    if let Some(bytes) = named_bytes(named, inode) {
        return bytes_of_slice(alloc, bytes.bytes());
    }
    bytes_in(alloc, now, inode)
}

/// What is on the disk, and other bytes where they were not.
pub(crate) fn torn_bytes(
    alloc: Global,
    kept: &InodeMap<Bytes>,
    now: &InodeMap<Bytes>,
    dirty: &InodeMap<()>,
    named: &[(u64, Bytes)],
) -> Result<InodeMap<Bytes>, AllocError>
    ensures left { IfOk result (λ left. left ≡ with_all (left_bytes now.now named.now) kept.now (map.keys dirty.now)) }
    ensures bytes { OnOk result (AllByRecursion (λ inode. AreBytes (left_bytes now.now named.now inode)) (map.keys dirty.now)) }
{
    let inodes = dirty.inodes(alloc)?;
    let mut left = kept.copy()?;
    for inode in &inodes {
        left.insert(*inode, bytes_left(alloc, now, named, *inode)?)?;
    }
    Ok(left)
}

// Which of the things that a crash may leave are looked at.
use fs_mem::Pick;
use fs_model::Bytes;
use std::alloc::{AllocError, Global};

// The inodes whose bytes a pick names: those of both clusters, and those that a replay makes.
const INODES: u64 = 16;

// More changes than ever wait in a replay.
const CHANGES: usize = 24;

// Of so many changes that wait in a row each choice is picked; it comes again for the next ones.
const BITS: usize = 5;

const CHOICES: usize = 32;

fn torn(alloc: Global) -> Result<Vec<(u64, Bytes)>, AllocError> {
    let mut bytes = Vec::new(alloc);
    for inode in 0..INODES {
        bytes.push((inode, Bytes::new(b"torn".to_vec(alloc)?)))?;
    }
    Ok(bytes)
}

fn changes(alloc: Global, choice: usize) -> Result<Vec<bool>, AllocError> {
    let mut changes = Vec::new(alloc);
    let mut rest = 0;
    for place in 0..CHANGES {
        if place % BITS == 0 {
            rest = choice;
        }
        changes.push(rest % 2 == 1)?;
        rest /= 2;
    }
    Ok(changes)
}

fn pick(alloc: Global, choice: usize) -> Result<Pick, AllocError> {
    Ok(Pick::new(changes(alloc, choice)?, torn(alloc)?))
}

/// Each choice of the changes that wait, with each file torn that waits.
pub(crate) fn picks(alloc: Global) -> Result<Vec<Pick>, AllocError> {
    let mut picks = Vec::new(alloc);
    for choice in 0..CHOICES {
        picks.push(pick(alloc, choice)?)?;
    }
    Ok(picks)
}

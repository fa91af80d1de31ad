// The parts as a tree.
ghost use Rattle.std.specs.Prelude.{◌≡◌, IfOk};
ghost use Rattle.cluster_gen.specs.Tree.{entry_of, numbered};

use crate::parts::Part;
use fs_mem::{Entry, Tree};
use fs_model::Bytes;
use std::alloc::{AllocError, Global};

// What stands at a path, with this inode where it is a file.
fn entry_of(inode: u64, bytes: &Option<Bytes>) -> Result<Entry, AllocError>
    ensures { IfOk result (λ entry. entry ≡ entry_of inode bytes.now) }
{
    Ok(match bytes {
        None => Entry::Dir { device: 0 },
        Some(bytes) => Entry::File {
            inode,
            bytes: bytes.clone()?,
        },
    })
}

/// The tree of the parts. The files have the inodes from 1 on, in the order of the parts.
pub(crate) fn numbered(alloc: Global, parts: &[Part]) -> Result<Tree, AllocError>
    ensures { IfOk result (λ tree. tree ≡ numbered 1 parts.now) }
{
    let mut entries = Vec::new(alloc);
    let mut inode = 1;
    for part in parts {
        entries.push((part.path.clone()?, entry_of(inode, &part.bytes)?))?;
        if part.bytes.is_some() {
            inode += 1;
        }
    }
    Ok(Tree::new(entries))
}

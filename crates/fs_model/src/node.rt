// What stands at a path.
ghost use Rattle.std.specs.Prelude.{◌≡◌};

use crate::Path;
use std::alloc::AllocError;

/// What stands at a path: a directory, a file by the number of its inode, or a symbolic link by its target.
#[derive(Drop)]
pub enum Node {
    Dir,
    File(u64),
    Sym(Path),
}

impl Clone for Node {
    ghost is_clone = { λ a b. b ≡ a };

    fn clone(&self) -> Result<Node, AllocError> {
        Ok(match self {
            Node::Dir => Node::Dir,
            Node::File(inode) => Node::File(*inode),
            Node::Sym(target) => Node::Sym(target.clone()?),
        })
    }
}

/// The kind of what stands at a path.
#[derive(Clone, Copy, Debug, PartialEq, Eq)]
pub enum Kind {
    Dir,
    File,
    Sym,
}

/// By what two names are seen to be one file.
#[derive(Clone, Copy, Debug, PartialEq, Eq)]
pub struct Identity {
    /// The device of the directory that the name stands in; a directory's own.
    pub device: u64,
    /// The number of the file's inode; 0 for what is no file.
    pub inode: u64,
}

/// What `stat` says of a path.
#[derive(Clone, Copy, Debug, PartialEq, Eq)]
pub struct Stat {
    pub kind: Kind,
    /// In bytes, at most 2^63 - 1; 0 for what is no file.
    pub size: u64,
    pub identity: Identity,
}

// Trees: what a file system opens with, and what stands in it.
ghost use Rattle.std.specs.Prelude.{◌≡◌, IfOk};
ghost use Rattle.fs_mem.specs.Tree.{node_of, tree_of, entry_at};

use fs_model::{Bytes, Node, Path};
use fs_state::State;
use std::alloc::{AllocError, Global};
use std::marker::Model;

/// What stands at a path of a tree.
#[derive(Drop)]
pub enum Entry {
    /// A directory, and the number of its device.
    Dir { device: u64 },
    /// A file: the number of its inode, and its bytes.
    File { inode: u64, bytes: Bytes },
    /// A symbolic link, and its target.
    Sym(Path),
}

/// Entries by path, without the root.
#[derive(Drop)]
pub struct Tree {
    entries: Vec<(Path, Entry)>,
}

impl Model for Tree {
    ghost use Rattle.std.specs.Prelude.{List, ℕ};
    ghost use Rattle.fs_mem.specs.declared.tree.Entry.{Entry};

    ghost Value = { List (List (List ℕ) × Entry) };

    ghost view = { λ a. a.entries.items };
}

impl Tree {
    /// Takes no memory.
    pub fn new(entries: Vec<(Path, Entry)>) -> Tree
        ensures { result ≡ entries.items }
    {
        Tree { entries }
    }

    /// Lends the entries.
    pub fn items(&self) -> &[(Path, Entry)]
        ensures { result.now ≡ self.now }
    {
        &self.entries
    }
}

/// The node of an entry.
pub(crate) fn entry_node(entry: &Entry) -> Result<Node, AllocError>
    ensures { IfOk result (λ node. node ≡ node_of entry.now) }
{
    Ok(match entry {
        Entry::Dir { .. } => Node::Dir,
        Entry::File { inode, .. } => Node::File(*inode),
        Entry::Sym(target) => Node::Sym(target.clone()?),
    })
}

// What stands at a path that is not the root.
fn entry_in(alloc: Global, state: &State, at: &Path) -> Result<Option<Entry>, AllocError>
    ensures { IfOk result (λ entry. entry ≡ entry_at state.now at.now) }
{
    if at.names().is_empty() {
        return Ok(None);
    }
    match state.node(at) {
        Some(Node::Dir) => Ok(Some(Entry::Dir {
            device: state.device(at),
        })),
        Some(Node::File(inode)) => Ok(Some(Entry::File {
            inode: *inode,
            bytes: state.bytes_copy(alloc, *inode)?,
        })),
        Some(Node::Sym(target)) => Ok(Some(Entry::Sym(target.clone()?))),
        None => Ok(None),
    }
}

/// What stands now, without the root, in ascending order of the paths.
pub(crate) fn standing(alloc: Global, state: &State) -> Result<Tree, AllocError>
    ensures { IfOk result (λ tree. tree ≡ tree_of state.now) }
{
    let mut entries = Vec::new(alloc);
    for path in state.names().paths(alloc)? {
        if let Some(entry) = entry_in(alloc, state, &path)? {
            entries.push((path, entry))?;
        }
    }
    Ok(Tree::new(entries))
}

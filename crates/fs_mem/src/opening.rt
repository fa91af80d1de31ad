// The state that a file system in memory opens with.
ghost use Rattle.std.specs.Prelude.{◌≡◌, ◌≢◌, None, Some, IfOk, IfErr, OnOk};
ghost use Rattle.std.specs.Option.{option_copied};
ghost use Rattle.fs_mem.specs.declared.error.TreeError.TheVariants.{OutOfMemory};
ghost use Rattle.fs_model.specs.Names.{parent};
ghost use Rattle.fs_mem.specs.Tree.{is_dir, differs, with_name, with_contents, with_device, fault_of, tree_fault, opening_of};

use crate::tree::entry_node;
use crate::{Entry, Tree, TreeError};
use fs_maps::{InodeMap, PathMap};
use fs_model::{Bytes, Node, Path};
use fs_state::State;
use std::alloc::{AllocError, Global};

// Whether a directory stands there.
fn is_directory(node: Option<&Node>) -> bool
    ensures { result ≡ is_dir (option_copied node.entry) }
{
    matches!(node, Some(Node::Dir))
}

// Whether it is a file, and its inode has other bytes.
fn has_other_bytes(contents: &InodeMap<Bytes>, entry: &Entry) -> bool
    ensures { result ≡ differs contents.now entry.now }
{
    match entry {
        Entry::File { inode, bytes } => match contents.get(*inode) {
            Some(earlier) => earlier != bytes,
            None => false,
        },
        _ => false,
    }
}

// Why the entry of this place can't stand behind those that the maps were made of, where its directory is this one. Takes
// no memory.
fn test_placed(
    names: &PathMap<Node>,
    contents: &InodeMap<Bytes>,
    dir: &Path,
    index: usize,
    item: &(Path, Entry),
) -> Result<(), TreeError>
    requires dir { dir.now ≡ parent item.now.0 }
    ensures ok { OnOk result (fault_of names.now contents.now index item.now ≡ None) }
    ensures err { IfErr result (λ e. fault_of names.now contents.now index item.now ≡ Some e) }
{
    let (path, entry) = item;
    if !is_directory(names.get(dir)) {
        return Err(TreeError::NoParent(index));
    }
    if names.get(path).is_some() {
        return Err(TreeError::Twice(index));
    }
    if has_other_bytes(contents, entry) {
        return Err(TreeError::InodeDiffers(index));
    }
    Ok(())
}

// Why the entry of this place can't stand behind those that the maps were made of.
fn test_entry(
    names: &PathMap<Node>,
    contents: &InodeMap<Bytes>,
    index: usize,
    item: &(Path, Entry),
) -> Result<(), TreeError>
    ensures ok { OnOk result (fault_of names.now contents.now index item.now ≡ None) }
    ensures err { IfErr result (λ e. e ≢ OutOfMemory → fault_of names.now contents.now index item.now ≡ Some e) }
{
    let dir = item.0.parent()?;
    test_placed(names, contents, &dir, index, item)
}

// Puts the entry into the maps.
fn put_entry(
    names: &mut PathMap<Node>,
    contents: &mut InodeMap<Bytes>,
    devices: &mut PathMap<u64>,
    item: &(Path, Entry),
) -> Result<(), AllocError>
    ensures names { OnOk result (names.new ≡ with_name names.old item.now) }
    ensures contents { OnOk result (contents.new ≡ with_contents contents.old item.now) }
    ensures devices { OnOk result (devices.new ≡ with_device devices.old item.now) }
{
    let (path, entry) = item;
    names.insert(path.clone()?, entry_node(entry)?)?;
    match entry {
        Entry::Dir { device } => devices.insert(path.clone()?, *device)?,
        Entry::File { inode, bytes } => contents.insert(*inode, bytes.clone()?)?,
        Entry::Sym(_) => {}
    }
    Ok(())
}

/// The state that holds the tree, all of it on the disk. The root has device 0.
pub(crate) fn opened(alloc: Global, tree: &Tree) -> Result<State, TreeError>
    ensures ok { IfOk result (λ state. state ≡ opening_of tree.now) }
    ensures sound { OnOk result (tree_fault tree.now ≡ None) }
    ensures err { IfErr result (λ e. e ≢ OutOfMemory → tree_fault tree.now ≡ Some e) }
{
    let mut names = PathMap::new(alloc);
    names.insert(Path::root(alloc), Node::Dir)?;
    let mut devices = PathMap::new(alloc);
    devices.insert(Path::root(alloc), 0)?;
    let mut contents = InodeMap::new(alloc);
    for (index, item) in tree.items().iter().enumerate() {
        test_entry(&names, &contents, index, item)?;
        put_entry(&mut names, &mut contents, &mut devices, item)?;
    }
    Ok(State::settled(alloc, names, contents, devices)?)
}

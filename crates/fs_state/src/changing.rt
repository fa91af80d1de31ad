//! The effect that each call has in a state, or why it is refused.
ghost use Rattle.std.specs.Prelude.{◌≡◌, IfOk};
ghost use Rattle.fs_model.specs.Calls.{Creates, WritesAt, MakesDir, MakesSymlink, Links, Renames, Unlinks, RemovesDir, SyncsFile, SyncsDir, AreBytes, overwritten, crosses, is_root};
ghost use Rattle.fs_model.specs.Effects.{bytes_of};
ghost use Rattle.fs_state.specs.Actions.{effect_in, effect_wanted};
ghost use Rattle.fs_state.specs.Wants.{Wants, HasBytes};

use crate::refusing::{test_dir, test_file, test_free, test_leaf, test_way};
use crate::{Action, State};
use fs_model::{Bytes, Effect, FsError, NameChange, Node, Path};
use std::alloc::{AllocError, Global};

/// A new file with no bytes.
pub fn create(alloc: Global, state: &State, at: &Path) -> Result<Effect, FsError>
    ensures { Wants state.now (Creates at.now) result }
{
    test_way(alloc, state.names(), at)?;
    test_free(state.node(at))?;
    let inode = state.next_inode()?;
    Ok(Effect::NewFile(at.clone()?, inode))
}

// Bytes written over others are bytes.
fn test_bytes(old: &[u8], from: u64, bytes: &[u8])
    ensures { AreBytes (overwritten old.now from bytes.now) }
{
    let _ = (old.len(), bytes.len());
}

/// The bytes stand in the file from the place on; a gap before them is zeros.
pub fn write_at(
    alloc: Global,
    state: &State,
    at: &Path,
    from: u64,
    bytes: &[u8],
) -> Result<Action, FsError>
    ensures { Wants state.now (WritesAt at.now from bytes.now) (effect_wanted state.now result) }
{
    test_way(alloc, state.names(), at)?;
    let inode = test_file(state.node(at))?;
    test_bytes(state.bytes(inode), from, bytes);
    Ok(Action::Write {
        inode,
        from,
        bytes: Bytes::new(bytes.to_vec(alloc)?),
    })
}

/// A write of nothing, which leaves the inode the bytes that it has.
pub fn write_nothing(alloc: Global, state: &State, inode: u64) -> Action
    ensures effect { effect_in state.now result ≡ Effect.Bytes inode (bytes_of state.now.bytes inode) }
    ensures bytes { HasBytes (effect_in state.now result) }
{
    test_bytes(state.bytes(inode), 0, &[]);
    Action::Write {
        inode,
        from: 0,
        bytes: Bytes::new(Vec::new(alloc)),
    }
}

/// A new directory on its parent's device.
pub fn make_dir(alloc: Global, state: &State, at: &Path) -> Result<Effect, FsError>
    ensures { Wants state.now (MakesDir at.now) result }
{
    test_way(alloc, state.names(), at)?;
    test_free(state.node(at))?;
    let device = state.device(&at.parent()?);
    Ok(Effect::NewDir(at.clone()?, device))
}

/// A new symbolic link.
pub fn make_symlink(
    alloc: Global,
    state: &State,
    at: &Path,
    target: &Path,
) -> Result<Effect, FsError>
    ensures { Wants state.now (MakesSymlink at.now target.now) result }
{
    test_way(alloc, state.names(), at)?;
    test_free(state.node(at))?;
    let pairs = vec![in alloc; (at.clone()?, Some(Node::Sym(target.clone()?)))]?;
    Ok(Effect::Names(NameChange::new(pairs)))
}

/// A second name of a file.
pub fn link(alloc: Global, state: &State, from: &Path, to: &Path) -> Result<Effect, FsError>
    ensures { Wants state.now (Links from.now to.now) result }
{
    test_way(alloc, state.names(), from)?;
    test_way(alloc, state.names(), to)?;
    let inode = test_file(state.node(from))?;
    test_free(state.node(to))?;
    if state.device(&from.parent()?) != state.device(&to.parent()?) {
        return Err(FsError::CrossDevice);
    }
    let pairs = vec![in alloc; (to.clone()?, Some(Node::File(inode)))]?;
    Ok(Effect::Names(NameChange::new(pairs)))
}

// Whether it is the root.
fn is_root_path(at: &Path) -> bool
    ensures { result ≡ is_root at.now }
{
    at.names().is_empty()
}

// Whether the paths are no names of one directory.
fn is_across(from: &Path, to: &Path) -> Result<bool, AllocError>
    ensures { IfOk result (λ across. across ≡ crosses from.now to.now) }
{
    let dir = to.parent()?;
    Ok(is_root_path(from) || is_root_path(to) || !from.is_in(&dir))
}

/// Another name in its directory of a file.
pub fn rename(alloc: Global, state: &State, from: &Path, to: &Path) -> Result<Effect, FsError>
    ensures { Wants state.now (Renames from.now to.now) result }
{
    test_way(alloc, state.names(), from)?;
    test_way(alloc, state.names(), to)?;
    if is_across(from, to)? {
        return Err(FsError::CrossDir);
    }
    let inode = test_file(state.node(from))?;
    test_free(state.node(to))?;
    let pairs = vec![in alloc;
        (from.clone()?, None),
        (to.clone()?, Some(Node::File(inode))),
    ]?;
    Ok(Effect::Names(NameChange::new(pairs)))
}

/// No name any more of a file or a symbolic link.
pub fn unlink(alloc: Global, state: &State, at: &Path) -> Result<Effect, FsError>
    ensures { Wants state.now (Unlinks at.now) result }
{
    test_way(alloc, state.names(), at)?;
    test_leaf(state.node(at))?;
    let pairs = vec![in alloc; (at.clone()?, None)]?;
    Ok(Effect::Names(NameChange::new(pairs)))
}

/// No directory any more.
pub fn remove_dir(alloc: Global, state: &State, at: &Path) -> Result<Effect, FsError>
    ensures { Wants state.now (RemovesDir at.now) result }
{
    test_way(alloc, state.names(), at)?;
    test_dir(state.node(at))?;
    if is_root_path(at) || state.names().has_child(at) {
        return Err(FsError::NotEmpty);
    }
    let pairs = vec![in alloc; (at.clone()?, None)]?;
    Ok(Effect::Names(NameChange::new(pairs)))
}

/// A file's bytes on the disk.
pub fn sync_file(alloc: Global, state: &State, at: &Path) -> Result<Effect, FsError>
    ensures { Wants state.now (SyncsFile at.now) result }
{
    test_way(alloc, state.names(), at)?;
    let inode = test_file(state.node(at))?;
    Ok(Effect::KeepBytes(inode))
}

/// A directory's changes of names on the disk.
pub fn sync_dir(alloc: Global, state: &State, at: &Path) -> Result<Effect, FsError>
    ensures { Wants state.now (SyncsDir at.now) result }
{
    test_way(alloc, state.names(), at)?;
    test_dir(state.node(at))?;
    Ok(Effect::KeepNames(at.clone()?))
}

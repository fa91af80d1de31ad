// The tests by which a call is refused.
ghost use Rattle.std.specs.Prelude.{◌≡◌, ◌≢◌, ◌++◌, ◌∷◌, [], None, Some, Err, IfOk, IsErrOf};
ghost use Rattle.std.specs.Option.{option_copied};
ghost use Rattle.fs_model.specs.declared.node.Node.TheVariants.{File, Sym};
ghost use Rattle.fs_model.specs.declared.error.FsError.TheVariants.{OutOfMemory};
ghost use Rattle.fs_model.specs.Calls.{blocked, taken, no_dir, no_file, no_symlink, no_leaf};
ghost use Rattle.fs_state.specs.Wants.{Tests};

use fs_maps::PathMap;
use fs_model::{FsError, Name, Node, Path};
use std::alloc::{AllocError, Global};

/// Refuses what is no directory.
pub(crate) fn test_dir(node: Option<&Node>) -> Result<(), FsError>
    ensures refuses { Tests (no_dir (option_copied node.entry)) result }
    ensures never_memory { result ≢ Err OutOfMemory }
{
    match node {
        Some(Node::Dir) => Ok(()),
        Some(_) => Err(FsError::NotDir),
        None => Err(FsError::NotFound),
    }
}

/// Refuses what stands.
pub(crate) fn test_free(node: Option<&Node>) -> Result<(), FsError>
    ensures refuses { Tests (taken (option_copied node.entry)) result }
    ensures never_memory { result ≢ Err OutOfMemory }
{
    match node {
        Some(_) => Err(FsError::Exists),
        None => Ok(()),
    }
}

/// Refuses what is no file, and gives a file's inode.
pub(crate) fn test_file(node: Option<&Node>) -> Result<u64, FsError>
    ensures refuses { Tests (no_file (option_copied node.entry)) result }
    ensures never_memory { result ≢ Err OutOfMemory }
    ensures file { IfOk result (λ inode. option_copied node.entry ≡ Some (File inode)) }
{
    match node {
        Some(Node::File(inode)) => Ok(*inode),
        Some(_) => Err(FsError::WrongKind),
        None => Err(FsError::NotFound),
    }
}

/// Refuses a directory, and what does not stand.
pub(crate) fn test_leaf(node: Option<&Node>) -> Result<(), FsError>
    ensures refuses { Tests (no_leaf (option_copied node.entry)) result }
    ensures never_memory { result ≢ Err OutOfMemory }
{
    match node {
        Some(Node::Dir) => Err(FsError::WrongKind),
        Some(_) => Ok(()),
        None => Err(FsError::NotFound),
    }
}

/// Refuses what is no symbolic link, and gives a link's target.
pub(crate) fn test_symlink(node: Option<&Node>) -> Result<Path, FsError>
    ensures refuses { Tests (no_symlink (option_copied node.entry)) result }
    ensures memory { IsErrOf result OutOfMemory → no_symlink (option_copied node.entry) ≡ None }
    ensures target { IfOk result (λ target. option_copied node.entry ≡ Some (Sym target)) }
{
    match node {
        Some(Node::Sym(target)) => Ok(target.clone()?),
        Some(_) => Err(FsError::WrongKind),
        None => Err(FsError::NotFound),
    }
}

// The path with one name more.
fn child(dir: &Path, name: &Name) -> Result<Path, AllocError>
    ensures { IfOk result (λ path. path ≡ dir.now ++ name.now ∷ []) }
{
    dir.child(name).map_err(|_| AllocError)
}

/// Refuses a path with a proper prefix that is no directory; the shortest such prefix decides.
pub(crate) fn test_way(alloc: Global, names: &PathMap<Node>, at: &Path) -> Result<(), FsError>
    ensures { Tests (blocked names.now at.now) result }
{
    let mut done = Path::root(alloc);
    for name in at.names() {
        test_dir(names.get(&done))?;
        done = child(&done, name)?;
    }
    Ok(())
}

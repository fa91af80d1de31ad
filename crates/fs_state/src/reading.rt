//! What the calls that only read give in a state, or why they are refused.
ghost use Rattle.std.specs.Prelude.{◌≡◌, ◌≤◌, ◌+◌, ◌-◌, ◌^◌, length, IfOk, Some};
ghost use Rattle.std.specs.FinMap as map;
ghost use Rattle.fs_model.specs.declared.node.Node.TheVariants.{Sym};
ghost use Rattle.fs_model.specs.Calls.{Stats, Lists, ReadsAt, ReadsLink, children, refusal};
ghost use Rattle.fs_model.specs.Reading.{stat_of, Reads};
ghost use Rattle.fs_state.specs.Wants.{Tests};

use crate::State;
use crate::refusing::{test_dir, test_file, test_symlink, test_way};
use fs_model::{FsError, Identity, Kind, Name, Node, Path, Stat};
use std::alloc::Global;

/// The kind, size and identity of what stands at a path.
pub fn stat(alloc: Global, state: &State, at: &Path) -> Result<Stat, FsError>
    ensures refuses { Tests (refusal state.now (Stats at.now)) result }
    ensures gives { IfOk result (λ stat. stat_of state.now at.now ≡ Some stat) }
    ensures size { IfOk result (λ stat. stat.size ≤ 2 ^ 63 - 1) }
{
    test_way(alloc, state.names(), at)?;
    let parent = at.parent()?;
    match state.node(at) {
        Some(Node::Dir) => Ok(Stat {
            kind: Kind::Dir,
            size: 0,
            identity: Identity {
                device: state.device(at),
                inode: 0,
            },
        }),
        Some(Node::File(inode)) => Ok(Stat {
            kind: Kind::File,
            size: state.bytes(*inode).len() as u64,
            identity: Identity {
                device: state.device(&parent),
                inode: *inode,
            },
        }),
        Some(Node::Sym(_)) => Ok(Stat {
            kind: Kind::Sym,
            size: 0,
            identity: Identity {
                device: state.device(&parent),
                inode: 0,
            },
        }),
        None => Err(FsError::NotFound),
    }
}

/// The names in a directory, in ascending order.
pub fn list(alloc: Global, state: &State, at: &Path) -> Result<Vec<Name>, FsError>
    ensures refuses { Tests (refusal state.now (Lists at.now)) result }
    ensures gives { IfOk result (λ names. names.items ≡ children state.now.names at.now) }
{
    test_way(alloc, state.names(), at)?;
    test_dir(state.node(at))?;
    Ok(state.names().children(alloc, at)?)
}

/// Reads a file's bytes from a place on into the slice, and gives how many.
pub fn read_at(
    alloc: Global,
    state: &State,
    at: &Path,
    from: u64,
    into: &mut [u8],
) -> Result<usize, FsError>
    ensures refuses { Tests (refusal state.now (ReadsAt at.now)) result }
    ensures gives { IfOk result (λ count. Reads state.now at.now from count into.new) }
    ensures count { IfOk result (λ count. count ≤ length into.old) }
{
    test_way(alloc, state.names(), at)?;
    let inode = test_file(state.node(at))?;
    let bytes = state.bytes(inode);
    let start = (from as usize).min(bytes.len());
    let count = into.len().min(bytes.len() - start);
    into[..count].copy_from_slice(&bytes[start..start + count]);
    Ok(count)
}

/// The target of a symbolic link.
pub fn read_link(alloc: Global, state: &State, at: &Path) -> Result<Path, FsError>
    ensures refuses { Tests (refusal state.now (ReadsLink at.now)) result }
    ensures gives { IfOk result (λ target. map.get state.now.names at.now ≡ Some (Sym target)) }
{
    test_way(alloc, state.names(), at)?;
    test_symlink(state.node(at))
}

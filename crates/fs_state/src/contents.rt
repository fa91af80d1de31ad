// The bytes of files.
ghost use Rattle.std.specs.Prelude.{◌≡◌, IfOk, OnOk};
ghost use Rattle.fs_model.specs.Calls.{AreBytes, overwritten};
ghost use Rattle.fs_model.specs.Effects.{bytes_of};

use fs_maps::InodeMap;
use fs_model::Bytes;
use std::alloc::{AllocError, Global};

/// A copy of bytes.
pub(crate) fn bytes_of_slice(alloc: Global, items: &[u8]) -> Result<Bytes, AllocError>
    ensures value { IfOk result (λ bytes. bytes ≡ items.now) }
    ensures bytes { AreBytes items.now }
{
    Ok(Bytes::new(items.to_vec(alloc)?))
}

/// The bytes of an inode, where it has any.
pub(crate) fn bytes_in(
    alloc: Global,
    contents: &InodeMap<Bytes>,
    inode: u64,
) -> Result<Bytes, AllocError>
    ensures value { IfOk result (λ bytes. bytes ≡ bytes_of contents.now inode) }
    ensures bytes { IfOk result AreBytes }
{
    match contents.get(inode) {
        Some(bytes) => bytes_of_slice(alloc, bytes.bytes()),
        None => bytes_of_slice(alloc, &[]),
    }
}

/// Writes bytes over others from a place on; a gap before them is zeros. After an error it is not said what they are.
pub(crate) fn write_over(old: &mut Vec<u8>, from: usize, bytes: &[u8]) -> Result<(), AllocError>
    ensures { OnOk result (old.new.items ≡ overwritten old.old.items from bytes.now) }
{
    if bytes.len() <= old.len() && from <= old.len() - bytes.len() {
        old[from..from + bytes.len()].copy_from_slice(bytes);
        return Ok(());
    }
    old.resize(from, 0)?;
    old.extend_from_slice(bytes)?;
    Ok(())
}

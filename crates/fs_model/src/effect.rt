use crate::{Bytes, NameChange, Path};

/// What one call does to the state of a file system.
#[derive(Drop)]
pub enum Effect {
    /// Nothing changes.
    Nothing,
    /// Names change now, and wait to be put on the disk.
    Names(NameChange),
    /// A new file with no bytes, of this inode.
    NewFile(Path, u64),
    /// A new directory, on this device.
    NewDir(Path, u64),
    /// The inode has these bytes now.
    Bytes(u64, Bytes),
    /// The inode's bytes are put on the disk.
    KeepBytes(u64),
    /// The directory's waiting changes are put on the disk.
    KeepNames(Path),
}

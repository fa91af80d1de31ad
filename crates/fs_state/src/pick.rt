// Which image of a state is meant.
ghost use Rattle.std.specs.Prelude.{◌≡◌};

use fs_model::Bytes;
use std::marker::Model;

/// Which image of a state is meant: which of the waiting changes came onto the disk, the oldest first, where those past the
/// end did not; and which bytes files have that were not on the disk, by inode, where the first entry of an inode counts.
/// A file that is not named has its bytes now.
#[derive(Drop)]
pub struct Pick {
    changes: Vec<bool>,
    bytes: Vec<(u64, Bytes)>,
}

impl Model for Pick {
    ghost use Rattle.fs_state.specs.Images.{Picked};

    ghost Value = { Picked };

    ghost view = { λ a. record { changes = a.changes.items; bytes = a.bytes.items } };
}

impl Pick {
    /// Takes no memory.
    pub fn new(changes: Vec<bool>, bytes: Vec<(u64, Bytes)>) -> Pick
        ensures { result ≡ record { changes = changes.items; bytes = bytes.items } }
    {
        Pick { changes, bytes }
    }

    /// Lends which changes came onto the disk.
    pub fn changes(&self) -> &[bool]
        ensures { result.now ≡ self.now.changes }
    {
        &self.changes
    }

    /// Lends the bytes by inode.
    pub fn bytes(&self) -> &[(u64, Bytes)]
        ensures { result.now ≡ self.now.bytes }
    {
        &self.bytes
    }
}

// The numbers that files are known by.
ghost use Rattle.std.specs.Prelude.{◌≡◌, ◌≤◌, ◌<◌, Some, None, Ok, IfOk, IfSome, IsNone};
ghost use Rattle.std.specs.List.{All};
ghost use Rattle.std.specs.BTreeMap.{get, values};
ghost use Rattle.fs_real.specs.Identities.{identity_cmp};

use fs_model::FsError;
use std::alloc::Global;
use std::collections::BTreeMap;
use std::fs::Metadata;
use std::os::unix::fs::MetadataExt;

/// Gives each file that it sees a number, from 1 on, that it has given to no other: none that it has given is above
/// `last`, which never falls, and each new one is. The operating system uses the identity of a removed file again,
/// so its own numbers would not do.
#[derive(Drop)]
pub struct Numbers {
    // by device and inode, as the operating system has them
    known: BTreeMap<(u64, u64), u64>,
    last: u64,
    ghost given: { All (λ number. number ≤ last) (values known) },
}

// The operating system's identity of a file: its device and its inode.
pub(crate) fn identity(file: &Metadata) -> (u64, u64) {
    (file.dev(), file.ino())
}

impl Numbers {
    // Takes no memory.
    pub(crate) fn new(alloc: Global) -> Numbers {
        Numbers {
            known: BTreeMap::new(alloc),
            last: 0,
        }
    }

    // The number of a file. A file that was seen before keeps its own.
    pub(crate) fn number(&mut self, identity: (u64, u64)) -> Result<u64, FsError>
        ensures known { IfSome (get identity_cmp self.old.known identity) (λ number. result ≡ Ok number) }
        ensures fresh { IsNone (get identity_cmp self.old.known identity) → IfOk result (λ number. self.old.last < number) }
        ensures kept { IfOk result (λ number. get identity_cmp self.new.known identity ≡ Some number) }
        ensures given { IfOk result (λ number. number ≤ self.new.last) }
        ensures last { self.old.last ≤ self.new.last }
    {
        if let Some(number) = self.known.get(&identity) {
            return Ok(*number);
        }
        let number = self.last.checked_add(1).ok_or(FsError::Failed)?;
        self.last = number;
        self.known.insert(identity, number)?;
        Ok(number)
    }

    // A file that was just made: whatever had its identity before is gone, so the next look gives a new number.
    // Takes no memory.
    pub(crate) fn forget(&mut self, identity: (u64, u64))
        ensures forgotten { get identity_cmp self.new.known identity ≡ None }
        ensures last { self.new.last ≡ self.old.last }
    {
        self.known.remove(&identity);
    }
}

// The directories that were passed on the way to a path.
ghost use Rattle.std.specs.Prelude.{◌≡◌, Some, OnOk, [], string_bytes};
ghost use Rattle.std.specs.BTreeMap.{get_by_text, IsEmpty};

use std::alloc::{AllocError, Global};
use std::collections::BTreeMap;

/// Directories that were looked at and found to be no symbolic links, with their devices. Nobody else changes what
/// stands there, so they aren't asked for again until a directory is removed: no other call takes one away, or puts
/// something else where it stands.
#[derive(Drop)]
pub struct Passed {
    alloc: Global,
    // by the texts of their paths
    devices: BTreeMap<String, u64>,
}

impl Passed {
    // Takes no memory.
    pub(crate) fn new(alloc: Global) -> Passed {
        Passed {
            alloc,
            devices: BTreeMap::new(alloc),
        }
    }

    // The device of a directory that was passed.
    pub(crate) fn device(&self, text: &str) -> Option<u64>
        ensures { result ≡ get_by_text self.now.devices text.now }
    {
        self.devices.get(text).copied()
    }

    pub(crate) fn keep(&mut self, text: &str, device: u64) -> Result<(), AllocError> {
        let text = String::from_str(self.alloc, text)?;
        self.devices.insert(text, device)?;
        Ok(())
    }

    // Forgets all of them. Takes no memory.
    pub(crate) fn forget(&mut self)
        ensures { IsEmpty self.new.devices }
    {
        self.devices.clear();
    }
}

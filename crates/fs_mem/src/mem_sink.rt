// A sink in memory.
ghost use Rattle.std.specs.Prelude.{◌≡◌, ◌++◌, [], true, OnOk};
ghost use Rattle.fs_model.specs.Output.{SinkHasCause, IsPartPut};
ghost use Rattle.fs_mem.specs.Output.{Puts, more, sink_counts};

use fs_model::{Sink, SinkError};
use std::alloc::Global;
use std::marker::Model;

/// A sink in memory. It tells its bytes, and fails exactly at the puts that it was told to.
#[derive(Drop)]
pub struct MemSink {
    bytes: Vec<u8>,
    failing: Vec<u64>,
    puts: u64,
    faults: u64,
    lacks: u64,
}

impl Model for MemSink {
    ghost use Rattle.fs_mem.specs.Output.{Printed};

    ghost Value = { Printed };

    ghost view = { λ a. record { bytes = a.bytes.items; failing = a.failing.items; puts = a.puts; faults = a.faults; lacks = a.lacks } };
}

// One more, up to the end of the type.
fn one_more(count: u64) -> u64
    ensures { result ≡ more count }
{
    count.saturating_add(1)
}

impl MemSink {
    /// A sink with no bytes. The puts of these numbers will fail, counted from 0 over those that do not lack memory.
    /// Takes no memory.
    pub fn new(alloc: Global, failing: Vec<u64>) -> MemSink
        ensures { result ≡ record { bytes = []; failing = failing.items; puts = 0; faults = 0; lacks = 0 } }
    {
        MemSink {
            bytes: Vec::new(alloc),
            failing,
            puts: 0,
            faults: 0,
            lacks: 0,
        }
    }

    /// Lends the bytes that were put. Takes no memory.
    pub fn bytes(&self) -> &[u8]
        ensures { result.now ≡ self.now.bytes }
    {
        &self.bytes
    }

    // Appends all of the bytes, unless this put is to fail or memory lacks.
    fn append(&mut self, bytes: &[u8]) -> Result<(), SinkError>
        ensures puts { Puts self.old bytes.now result self.new }
        ensures cause { SinkHasCause (sink_counts self.old) (sink_counts self.new) result }
    {
        if self.failing.contains(&self.puts) {
            self.puts = one_more(self.puts);
            self.faults = one_more(self.faults);
            return Err(SinkError::Failed);
        }
        if self.bytes.extend_from_slice(bytes).is_err() {
            self.lacks = one_more(self.lacks);
            return Err(SinkError::OutOfMemory);
        }
        self.puts = one_more(self.puts);
        Ok(())
    }
}

impl Sink for MemSink {
    ghost told = { λ _. true };

    ghost written = { λ s. s.bytes };

    ghost counts = { sink_counts };

    fn put(&mut self, bytes: &[u8]) -> Result<(), SinkError>
        ensures told { true ≡ true }
        ensures puts { Puts self.old bytes.now result self.new }
        ensures appended { OnOk result (self.new.bytes ≡ self.old.bytes ++ bytes.now) }
        ensures part { true ≡ true → IsPartPut self.old.bytes bytes.now self.new.bytes }
        ensures cause { SinkHasCause (sink_counts self.old) (sink_counts self.new) result }
    {
        self.append(bytes)
    }
}

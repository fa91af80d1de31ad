// Where printed lines go.
ghost use Rattle.std.specs.Prelude.{◌≡◌, ◌++◌, List, ℕ, Bool, true, OnOk};
ghost use Rattle.fs_model.specs.Output.{SinkCounts, SinkHasCause, IsPartPut};

use crate::SinkError;

/// Where printed lines go. A sink may tell the bytes that it holds.
pub trait Sink {
    /// Whether it tells its bytes. No call changes it.
    ghost told: { Self → Bool };

    /// The bytes that were put, where they are told.
    ghost written: { Self → List ℕ };

    /// How often it failed and lacked memory. Neither falls.
    ghost counts: { Self → SinkCounts };

    /// Appends all of the bytes. After an error a first part of them may have been put.
    fn put(&mut self, bytes: &[u8]) -> Result<(), SinkError>
        ensures told { told self.new ≡ told self.old }
        ensures appended { told self.old ≡ true → OnOk result (written self.new ≡ written self.old ++ bytes.now) }
        ensures part { told self.old ≡ true → IsPartPut (written self.old) bytes.now (written self.new) }
        ensures cause { SinkHasCause (counts self.old) (counts self.new) result };
}

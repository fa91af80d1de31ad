// How many calls were made, and how often each sort of error was answered.
ghost use Rattle.std.specs.Prelude.{◌≡◌, Some, false};
ghost use Rattle.fs_model.specs.Trail.{HasCause, OthersStay, error_of};
ghost use Rattle.fs_real.specs.Counted.{closed, counts_of};

use fs_model::FsError;

/// Each of them stays at 2^64 - 1 once it is there.
#[derive(Drop)]
pub struct Tally {
    /// Answers of `Failed`.
    faults: u64,
    /// Answers of the errors that say why a call isn't possible.
    refusals: u64,
    /// Answers of `OutOfMemory`.
    lacks: u64,
    /// Calls, but for those that answered `OutOfMemory`.
    calls: u64,
}

impl Tally {
    pub(crate) fn new() -> Tally
        ensures { result ≡ record { faults = 0; refusals = 0; lacks = 0; calls = 0 } }
    {
        Tally {
            faults: 0,
            refusals: 0,
            lacks: 0,
            calls: 0,
        }
    }

    pub(crate) fn calls(&self) -> u64
        ensures { result ≡ self.now.calls }
    {
        self.calls
    }

    // Counts a call that answered an error.
    fn count(&mut self, error: FsError)
        ensures counted { self.new ≡ closed self.old (Some error) }
        ensures cause { HasCause false (counts_of self.old) (counts_of self.new) (Some error) }
        ensures others { OthersStay (counts_of self.old) (counts_of self.new) (Some error) }
    {
        match error {
            FsError::OutOfMemory => {
                self.lacks = self.lacks.saturating_add(1);
                return;
            }
            FsError::Failed => self.faults = self.faults.saturating_add(1),
            _ => self.refusals = self.refusals.saturating_add(1),
        }
        self.calls = self.calls.saturating_add(1);
    }

    // Ends a call: counts it by its answer, which it gives back. It is the only place that counts.
    pub(crate) fn close<T>(&mut self, answer: Result<T, FsError>) -> Result<T, FsError>
        ensures same { result ≡ answer }
        ensures counted { self.new ≡ closed self.old (error_of answer) }
        ensures cause { HasCause false (counts_of self.old) (counts_of self.new) (error_of result) }
        ensures others { OthersStay (counts_of self.old) (counts_of self.new) (error_of result) }
    {
        match answer {
            Ok(value) => {
                self.calls = self.calls.saturating_add(1);
                Ok(value)
            }
            Err(error) => {
                self.count(error);
                Err(error)
            }
        }
    }
}

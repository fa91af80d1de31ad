// Standard output.
ghost use Rattle.std.specs.Prelude.{◌≡◌, [], false, OnOk};
ghost use Rattle.std.specs.Io.KnownBytes.{Appends};
ghost use Rattle.fs_real.specs.Counted.{sink_counts_of};

use crate::error::sink_named;
use fs_model::{Sink, SinkError};
use std::io;
use std::io::Write;

/// A writer as a sink, untold: no contract says what became of the bytes. The program hands it standard output, as
/// `std::io::writer` makes it.
#[derive(Drop)]
pub struct OutSink<W> {
    out: W,
    faults: u64,
    lacks: u64,
}

// Writes all of the bytes, and leaves none in a buffer.
fn write_out<W: Write>(out: &mut W, bytes: &[u8]) -> io::Result<()>
    ensures { OnOk result (Appends (W.contents out.old) (W.contents out.new) bytes.now) }
{
    out.write_all(bytes)?;
    out.flush()
}

impl<W: Write> OutSink<W> {
    /// Only keeps what it is given: takes no memory and writes nothing.
    pub fn new(out: W) -> OutSink<W>
        ensures counts { sink_counts_of result.faults result.lacks ≡ record { faults = 0; lacks = 0 } }
        ensures out { result.out ≡ out }
    {
        OutSink {
            out,
            faults: 0,
            lacks: 0,
        }
    }
}

impl<W: Write> Sink for OutSink<W> {
    ghost told = { λ _. false };

    ghost written = { λ _. [] };

    ghost counts = { λ s. sink_counts_of s.faults s.lacks };

    fn put(&mut self, bytes: &[u8]) -> Result<(), SinkError> {
        let answer = write_out(&mut self.out, bytes).map_err(sink_named);
        match answer {
            Ok(()) => {}
            Err(SinkError::Failed) => self.faults = self.faults.saturating_add(1),
            Err(SinkError::OutOfMemory) => self.lacks = self.lacks.saturating_add(1),
        }
        answer
    }
}

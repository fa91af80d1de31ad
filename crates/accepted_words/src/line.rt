// Reading the words of a command line.
ghost use Rattle.std.specs.Prelude.{◌≡◌, ℕ, Err, IfOk};
ghost use Rattle.command_words.specs.Words.{AsksForDirectory, texts};
ghost use Rattle.accepted_words.specs.Accepted.{Asks, IsFaultAt};

use command_words::{Command, WordsError, read_words};
use control_file::{Job, Mode};
use fs_model::Path;
use std::alloc::Global;

/// What an accepted line asks for.
#[derive(Drop)]
pub enum Line {
    /// To upgrade; only to check both clusters, where the flag is set.
    Upgrade(Job, bool),
    /// To tell where an upgrade of the first directory into the second stands.
    Report(Path, Path),
    /// To upgrade a made pair of clusters with so many tables in memory.
    SelfTest(u64, Mode),
}

/// Reads the words of a command line, without the program's name: those of an upgrade, of a report or of a self-test, as
/// `read_words` of `command_words` has them. Any other line is a fault at the least position from which on no accepted line
/// goes. Memory lacks only for a directory's word.
pub fn read_line(alloc: Global, words: &[String]) -> Result<Line, WordsError>
    ensures accepted { IfOk result (λ line. Asks (texts words.now) line) }
    ensures usage { (position : ℕ) → result ≡ Err (WordsError.Usage position) → IsFaultAt (texts words.now) position }
    ensures lacking { result ≡ Err WordsError.OutOfMemory → AsksForDirectory (texts words.now) }
{
    match read_words(alloc, words) {
        Ok(Command::Upgrade(job, check)) => Ok(Line::Upgrade(job, check)),
        Ok(Command::Report(old, new)) => Ok(Line::Report(old, new)),
        Ok(Command::Selftest(tables, mode)) => Ok(Line::SelfTest(tables, mode)),
        Err(error) => Err(error),
    }
}

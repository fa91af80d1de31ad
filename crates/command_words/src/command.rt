use control_file::{Job, Mode};
use fs_model::Path;
use thiserror::Error;

/// What a command line asks for.
#[derive(Drop)]
pub enum Command {
    /// To upgrade; only to check both clusters, where the flag is set.
    Upgrade(Job, bool),
    /// To tell where an upgrade of the first directory into the second stands.
    Report(Path, Path),
    /// To upgrade a made pair of clusters with so many tables in memory.
    Selftest(u64, Mode),
}

/// Why words are no command.
#[derive(Clone, Copy, Debug, PartialEq, Eq, Error)]
pub enum WordsError {
    /// The words are no accepted command line. The least position, counted from 0, such that the words up to and with it
    /// begin none; the number of words, where all of them begin one.
    #[error("usage fault at word {0}")]
    Usage(u64),
    #[error("out of memory")]
    OutOfMemory,
}

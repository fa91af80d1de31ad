// What a check answers.
use crate::Refusal;
use catalog::Catalog;
use control_file::Control;
use fs_model::{FsError, Path};

/// What was read of two clusters that can be upgraded.
#[derive(Drop)]
pub struct Passed {
    pub old_control: Control,
    /// The first 296 bytes of the new control file.
    pub new_record: [u8; 296],
    pub old_catalog: Catalog,
}

/// Why what was seen before isn't there any more.
#[derive(Clone, Copy, Debug, PartialEq, Eq)]
pub enum Change {
    /// The file system refused a call on what had been seen.
    Refused(FsError),
    /// A catalog text that was read before isn't one now, at this line.
    Text(u64),
    /// A catalog differs from the one that was read before.
    Differs,
}

/// Why a check doesn't pass.
#[derive(Drop)]
pub enum CheckError {
    Refused(Refusal),
    /// The file system failed; the data directory of the side that the condition speaks of, of both sides the old one.
    Fs(Path, FsError),
    /// The catalog server failed.
    Server,
    /// What had been seen in this data directory changed during the check.
    Changed(Path, Change),
    OutOfMemory,
}

use crate::Mode;
use fs_model::Path;

/// What an upgrade is asked to do.
#[derive(Drop)]
pub struct Job {
    /// The data directory of release 15.
    pub old: Path,
    /// The data directory of release 16, freshly made.
    pub new: Path,
    pub mode: Mode,
}

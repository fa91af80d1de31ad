// What a phase that ends early answers.
use compat_checks::Change;
use fs_model::Path;
use phase_names::PhaseName;

/// Why a phase ended early.
#[derive(Drop)]
pub enum PhaseFault {
    /// The file system failed.
    Fs,
    /// The catalog server failed.
    Server,
    /// What had been seen in this data directory changed during the upgrade.
    Changed(Path, Change),
    /// Memory lacked.
    NoMemory,
}

/// In which phase an upgrade ended, and why.
#[derive(Drop)]
pub struct PhaseError {
    pub kind: PhaseFault,
    pub at: PhaseName,
}

// What the errors of the crates below are here.
ghost use Rattle.std.specs.Prelude.{◌≡◌};
ghost use Rattle.phases.specs.Faults;

use crate::PhaseFault;
use compat_checks::Change;
use control_file::{Job, Side};
use fs_model::{FsError, Path};
use restore::RestoreError;

/// An error of the file system; a refusal is a change of what was seen in the data directory.
pub(crate) fn files_fault(error: FsError, root: Path) -> PhaseFault
    ensures { result ≡ Faults.files_fault root error }
{
    match error {
        FsError::Failed => PhaseFault::Fs,
        FsError::OutOfMemory => PhaseFault::NoMemory,
        _ => PhaseFault::Changed(root, Change::Refused(error)),
    }
}

fn root_of(job: Job, side: Side) -> Path
    ensures { result ≡ Faults.root_of job side }
{
    match side {
        Side::Old => job.old,
        Side::New => job.new,
    }
}

/// An error of carrying the schema.
pub(crate) fn restore_fault(error: RestoreError, job: Job) -> PhaseFault
    ensures { result ≡ Faults.restore_fault job error }
{
    match error {
        RestoreError::Server => PhaseFault::Server,
        RestoreError::Fs(side, error) => files_fault(error, root_of(job, side)),
        RestoreError::Text(side, line) => {
            PhaseFault::Changed(root_of(job, side), Change::Text(line))
        }
        RestoreError::Differs => PhaseFault::Changed(job.new, Change::Differs),
        RestoreError::OutOfMemory => PhaseFault::NoMemory,
    }
}

ghost use Rattle.std.specs.Prelude.{◌≡◌};
ghost use Rattle.cluster_read.specs.Causes.{read_as};

use control_file::ControlError;
use fs_model::FsError;
use thiserror::Error;

/// Why the rows of a table aren't read.
#[derive(Clone, Copy, Debug, PartialEq, Eq, Error)]
pub enum ReadError {
    /// The file system failed, or refused to read the control file or the status files. It never wraps want of memory.
    #[error("the file system answered: {0}")]
    Fs(FsError),
    /// The catalog has no database or no table of this OID.
    #[error("there is no object {0}")]
    NoSuch(u32),
    /// The control file isn't read.
    #[error("{0}")]
    Control(ControlError),
    /// Memory lacked.
    #[error("out of memory")]
    OutOfMemory,
}

// An answer of a file system, as one of a reader.
pub(crate) fn read_as<T>(answer: Result<T, FsError>) -> Result<T, ReadError>
    ensures { result ≡ read_as answer }
{
    match answer {
        Ok(value) => Ok(value),
        Err(FsError::OutOfMemory) => Err(ReadError::OutOfMemory),
        Err(error) => Err(ReadError::Fs(error)),
    }
}

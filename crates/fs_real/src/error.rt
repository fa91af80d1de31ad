// What the operating system's errors are called here.
ghost use Rattle.std.specs.Prelude.{◌≡◌};
ghost use Rattle.std.specs.IoError.{error_kind};
ghost use Rattle.fs_real.specs.Errors.{named, path_named, sink_named};

use fs_model::{FsError, PathError, SinkError};
use std::io;
use std::io::ErrorKind;

// The answer that an error of the operating system gives. It is the only place where they are told apart.
pub(crate) fn named(error: io::Error) -> FsError
    ensures { result ≡ named (error_kind error) }
{
    match error.kind() {
        ErrorKind::NotFound => FsError::NotFound,
        ErrorKind::AlreadyExists => FsError::Exists,
        ErrorKind::NotADirectory => FsError::NotDir,
        ErrorKind::DirectoryNotEmpty => FsError::NotEmpty,
        ErrorKind::CrossesDevices => FsError::CrossDevice,
        ErrorKind::OutOfMemory => FsError::OutOfMemory,
        _ => FsError::Failed,
    }
}

// The answer where the disk has a text that is no path or no name of this product.
pub(crate) fn path_named(error: PathError) -> FsError
    ensures { result ≡ path_named error }
{
    match error {
        PathError::Bad => FsError::Failed,
        PathError::OutOfMemory => FsError::OutOfMemory,
    }
}

// The answer of a sink.
pub(crate) fn sink_named(error: io::Error) -> SinkError
    ensures { result ≡ sink_named (error_kind error) }
{
    match error.kind() {
        ErrorKind::OutOfMemory => SinkError::OutOfMemory,
        _ => SinkError::Failed,
    }
}

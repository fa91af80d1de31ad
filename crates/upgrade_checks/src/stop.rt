// Why the tests stopped.
ghost use Rattle.std.specs.Prelude.{◌≡◌};
ghost use Rattle.upgrade_checks.specs.Answers.{stop_for, stop_by, tell_path, judged_path, judged, judged_reading};
ghost use Rattle.upgrade_checks.specs.Findings.{number_of};

use catalog::Catalog;
use catalog_server::ServerError;
use compat_checks::Refusal;
use control_file::Side;
use dump_text::TextCause;
use fs_model::{FsError, Path};

/// Why the conditions are not all known to be met.
#[derive(Drop)]
pub(crate) enum Stop {
    /// This condition holds, and none before it.
    Refused(Refusal),
    /// The file system failed at a condition that speaks of this side; at one that speaks of both, it is the old side.
    Failed(Side),
    /// The catalog server failed.
    ServerFailed,
    /// The file system refused a call on what had been seen of this side.
    Changed(Side, FsError),
    /// Memory lacked.
    OutOfMemory,
}

impl From<Refusal> for Stop {
    ghost use Rattle.upgrade_checks.specs.declared.stop.Stop.TheVariants.{Refused};

    ghost from_gives = { λ refusal e. e ≡ Refused refusal };

    fn from(refusal: Refusal) -> Stop {
        Stop::Refused(refusal)
    }
}

/// A condition that finds a path.
#[derive(Clone, Copy, Debug, PartialEq, Eq)]
pub(crate) enum PathCondition {
    NewUsed,
    TablespaceDir,
    MissingFile,
    SharedInode,
    DeviceDiffers,
}

// The number of a cause, as it is printed.
fn number_of(cause: TextCause) -> u8
    ensures { result ≡ number_of cause }
{
    match cause {
        TextCause::Lex(_) => 1,
        TextCause::UnknownStatement => 2,
        TextCause::MissingOid => 3,
        TextCause::Catalog(_) => 4,
        TextCause::NoCatalog => 5,
        TextCause::OutOfMemory => 6,
    }
}

// The file system's error at a condition of this side.
fn stop_for(side: Side, error: FsError) -> Stop
    ensures { result ≡ stop_for side error }
{
    match error {
        FsError::Failed => Stop::Failed(side),
        FsError::OutOfMemory => Stop::OutOfMemory,
        error => Stop::Changed(side, error),
    }
}

// A server's error about this side.
fn stop_by(side: Side, error: ServerError) -> Stop
    ensures { result ≡ stop_by side error }
{
    match error {
        ServerError::Failed => Stop::ServerFailed,
        ServerError::Text { line, cause } => {
            Stop::Refused(Refusal::CatalogText(side, line, number_of(cause)))
        }
        ServerError::Fs(error) => stop_for(side, error),
        ServerError::OutOfMemory => Stop::OutOfMemory,
    }
}

fn tell_path(condition: PathCondition, path: Path) -> Refusal
    ensures { result ≡ tell_path condition path }
{
    match condition {
        PathCondition::NewUsed => Refusal::NewUsed(path),
        PathCondition::TablespaceDir => Refusal::TablespaceDir(path),
        PathCondition::MissingFile => Refusal::MissingFile(path),
        PathCondition::SharedInode => Refusal::SharedInode(path),
        PathCondition::DeviceDiffers => Refusal::DeviceDiffers(path),
    }
}

/// The answer of a test that finds a path.
pub(crate) fn judged_path(
    side: Side,
    condition: PathCondition,
    answer: Result<Option<Path>, FsError>,
) -> Result<(), Stop>
    ensures { result ≡ judged_path side condition answer }
{
    match answer {
        Ok(None) => Ok(()),
        Ok(Some(path)) => Err(Stop::Refused(tell_path(condition, path))),
        Err(error) => Err(stop_for(side, error)),
    }
}

/// The answer of a test that refuses where it passes.
pub(crate) fn judged(
    side: Side,
    refusal: Refusal,
    answer: Result<bool, FsError>,
) -> Result<(), Stop>
    ensures { result ≡ judged side refusal answer }
{
    match answer {
        Ok(true) => Err(Stop::Refused(refusal)),
        Ok(false) => Ok(()),
        Err(error) => Err(stop_for(side, error)),
    }
}

/// The answer of a server's reading.
pub(crate) fn judged_reading(
    side: Side,
    answer: Result<Catalog, ServerError>,
) -> Result<Catalog, Stop>
    ensures { result ≡ judged_reading side answer }
{
    match answer {
        Ok(catalog) => Ok(catalog),
        Err(error) => Err(stop_by(side, error)),
    }
}

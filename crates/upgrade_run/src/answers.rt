// The answers to what the checks, the phases and the verdict say. None takes memory.
ghost use Rattle.std.specs.Prelude.{◌≡◌, Err};
ghost use Rattle.upgrade_run.specs.Answers.{files_answer, change_answer, check_answer, fault_answer, phases_answer, verdict_as, report_answer};

use compat_checks::{Change, CheckError};
use fs_model::{FsError, Path};
use phase_names::{PhaseName, Summary};
use phases::{PhaseError, PhaseFault};
use upgrade_answers::{Answer, Verdict};
use verdicts::Verdict as Found;

// An error of the file system in a phase; a refused call is a change of what was seen in the data directory.
fn files_answer(at: PhaseName, root: Path, error: FsError) -> Answer
    ensures { result ≡ files_answer at root error }
{
    match error {
        FsError::Failed => Answer::FsFault(at),
        FsError::OutOfMemory => Answer::NoMemory(at),
        _ => Answer::Moved(root, Change::Refused(error)),
    }
}

fn change_answer(at: PhaseName, root: Path, change: Change) -> Answer
    ensures { result ≡ change_answer at root change }
{
    match change {
        Change::Refused(error) => files_answer(at, root, error),
        Change::Text(_) => Answer::Moved(root, change),
        Change::Differs => Answer::Moved(root, change),
    }
}

/// The answer where the checks don't pass.
pub(crate) fn check_answer(error: CheckError) -> Answer
    ensures { result ≡ check_answer error }
{
    match error {
        CheckError::Refused(refusal) => Answer::Refused(refusal),
        CheckError::Fs(root, error) => files_answer(PhaseName::Check, root, error),
        CheckError::Server => Answer::ServerFault(PhaseName::Check),
        CheckError::Changed(root, change) => change_answer(PhaseName::Check, root, change),
        CheckError::OutOfMemory => Answer::NoMemory(PhaseName::Check),
    }
}

fn fault_answer(at: PhaseName, fault: PhaseFault) -> Answer
    ensures { result ≡ fault_answer at fault }
{
    match fault {
        PhaseFault::Fs => Answer::FsFault(at),
        PhaseFault::Server => Answer::ServerFault(at),
        PhaseFault::Changed(root, change) => change_answer(at, root, change),
        PhaseFault::NoMemory => Answer::NoMemory(at),
    }
}

/// The answer after the phases behind the checks.
pub(crate) fn phases_answer(finished: Result<Summary, PhaseError>) -> Answer
    ensures { result ≡ phases_answer finished }
{
    match finished {
        Ok(summary) => Answer::Done(summary),
        Err(error) => fault_answer(error.at, error.kind),
    }
}

fn verdict_as(found: Found) -> Verdict
    ensures { result ≡ verdict_as found }
{
    match found {
        Found::Finished => Verdict::Finished,
        Found::Untouched => Verdict::Untouched,
        Found::Disabled => Verdict::Disabled,
        Found::Linked(paths) => Verdict::Linked(paths),
        Found::Unsafe(paths) => Verdict::Unsafe(paths),
        Found::NoControl => Verdict::NoControl,
    }
}

/// The answer to a report on the old cluster at a root.
pub(crate) fn report_answer(root: Path, verdict: Result<Found, FsError>) -> Answer
    ensures { result ≡ report_answer root verdict }
{
    match verdict {
        Ok(found) => Answer::Reported(verdict_as(found)),
        Err(error) => files_answer(PhaseName::Report, root, error),
    }
}

// All conditions in their order.
ghost use Rattle.std.specs.Prelude.{◌≡◌, true, false, Ok, Err, IfOk};
ghost use Rattle.fs_model.specs.Trail.{Unchanged, HasCause};
ghost use Rattle.control_checks.specs.Findings.{overlaps};
ghost use Rattle.compat_checks.specs.Order.{order};
ghost use Rattle.compat_checks.specs.declared.refusal.Refusal.TheVariants.{Overlap};
ghost use Rattle.compat_checks.specs.declared.answer.CheckError.TheVariants as check;
ghost use Rattle.upgrade_checks.specs.Findings.{readings_in};
ghost use Rattle.upgrade_checks.specs.Passing.{IsFirst, Passes, FindsNothing};
ghost use Rattle.upgrade_checks.specs.Parts.{later_part};
ghost use Rattle.upgrade_checks.specs.Answers.{Tested, HasServerPart, server_failed, IsReadFrom, side_of, error_by, judged_all, files_error, is_server_fault, IfRefused, IsNoChange, IsTold};

use crate::catalogs::{Catalogs, read_catalogs, test_catalogs};
use crate::controls::{overlaps, test_before};
use crate::stop::Stop;
use crate::trees::{test_links, test_trees};
use catalog_server::Server;
use compat_checks::{Change, CheckError, Passed, Refusal};
use control_checks::Controls;
use control_file::{Job, Side};
use fs_model::{Fs, FsError, Path};
use std::alloc::Global;

// The conditions that are tested when both catalogs are read.
fn test_later<F: Fs>(alloc: Global, fs: &mut F, job: &Job, catalogs: &Catalogs) -> Result<(), Stop>
    ensures tested { Tested false job.now (record { old = Ok catalogs.now.old; new = Ok catalogs.now.new }) later_part (record { told = F.told fs.old; firm = F.firm fs.old; depth = F.depth fs.old; trail = F.trail fs.old; counts = F.counts fs.old })
        (record { told = F.told fs.new; firm = F.firm fs.new; depth = F.depth fs.new; trail = F.trail fs.new; counts = F.counts fs.new }) result }
{
    test_catalogs(&catalogs.old, &catalogs.new)?;
    test_trees(alloc, fs, job, &catalogs.old)?;
    test_links(alloc, fs, job, &catalogs.old)
}

fn passed(controls: &Controls, catalogs: Catalogs) -> Passed
    ensures { result ≡ record { old_control = controls.now.old.control; new_record = controls.now.new.head; old_catalog = catalogs.old } }
{
    Passed {
        old_control: controls.old.control,
        new_record: controls.new.head,
        old_catalog: catalogs.old,
    }
}

// All conditions, and what was read for them.
fn test_all<F: Fs, S: Server<F>>(
    alloc: Global,
    server: &mut S,
    fs: &mut F,
    job: &Job,
) -> Result<Passed, Stop>
    ensures tested { Tested true job.now (readings_in S.catalog_of (F.trail fs.old).present job.now) order (record { told = F.told fs.old; firm = F.firm fs.old; depth = F.depth fs.old; trail = F.trail fs.old; counts = F.counts fs.old })
        (record { told = F.told fs.new; firm = F.firm fs.new; depth = F.depth fs.new; trail = F.trail fs.new; counts = F.counts fs.new }) result }
    ensures read { F.told fs.old ≡ true → IfOk result (IsReadFrom (F.trail fs.old).present job.now (readings_in S.catalog_of (F.trail fs.old).present job.now)) }
    ensures server { HasServerPart (server_failed result) (S.counts server.old) (S.counts server.new) }
{
    let controls = test_before(alloc, fs, job)?;
    let catalogs = read_catalogs(alloc, server, fs, job)?;
    test_later(alloc, fs, job, &catalogs)?;
    Ok(passed(&controls, catalogs))
}

// ---- the answer

fn side_of(old: Path, new: Path, side: Side) -> Path
    ensures { result ≡ side_of old new side }
{
    match side {
        Side::Old => old,
        Side::New => new,
    }
}

fn error_by(old: Path, new: Path, stop: Stop) -> CheckError
    ensures { result ≡ error_by old new stop }
{
    match stop {
        Stop::Refused(refusal) => CheckError::Refused(refusal),
        Stop::Failed(side) => CheckError::Fs(side_of(old, new, side), FsError::Failed),
        Stop::ServerFailed => CheckError::Server,
        Stop::Changed(side, error) => {
            CheckError::Changed(side_of(old, new, side), Change::Refused(error))
        }
        Stop::OutOfMemory => CheckError::OutOfMemory,
    }
}

// The answer, with the data directories for their sides.
fn judged_all(old: Path, new: Path, answer: Result<Passed, Stop>) -> Result<Passed, CheckError>
    ensures { result ≡ judged_all old new answer }
{
    match answer {
        Ok(passed) => Ok(passed),
        Err(stop) => Err(error_by(old, new, stop)),
    }
}

/// Tests all conditions of an upgrade in their order and stops at the first that holds. Nothing later is read once a refusal
/// is known, no state is changed, and what was read for the tests is handed on. Over a file system that isn't told a refused
/// call of the server, or of a walk, is a change.
pub fn check<F: Fs, S: Server<F>>(
    alloc: Global,
    server: &mut S,
    fs: &mut F,
    job: &Job,
) -> Result<Passed, CheckError>
    ensures told { F.told fs.new ≡ F.told fs.old }
    ensures firm { F.firm fs.new ≡ F.firm fs.old }
    ensures unchanged { F.told fs.old ≡ true → Unchanged (F.trail fs.old) (F.trail fs.new) }
    ensures passes { F.told fs.old ≡ true → IfOk result (λ _. Passes (F.trail fs.old).present job.now (readings_in S.catalog_of (F.trail fs.old).present job.now)) }
    // The same as findings.
    ensures nothing { F.told fs.old ≡ true → IfOk result (λ _. FindsNothing (F.trail fs.old).present job.now (readings_in S.catalog_of (F.trail fs.old).present job.now)) }
    ensures read { F.told fs.old ≡ true → IfOk result (IsReadFrom (F.trail fs.old).present job.now (readings_in S.catalog_of (F.trail fs.old).present job.now)) }
    ensures first { F.told fs.old ≡ true → IfRefused result (IsFirst (F.trail fs.old).present job.now (readings_in S.catalog_of (F.trail fs.old).present job.now)) }
    ensures no_change { F.told fs.old ≡ true → IsNoChange result }
    // Whether the file system is told or not.
    ensures overlap { overlaps job.now ≡ true → result ≡ Err (check.Refused Overlap) }
    ensures roots { IsTold job.now result }
    ensures cause { HasCause (F.firm fs.old) (F.counts fs.old) (F.counts fs.new) (files_error result) }
    ensures server { HasServerPart (is_server_fault result) (S.counts server.old) (S.counts server.new) }
{
    if overlaps(job) {
        return Err(CheckError::Refused(Refusal::Overlap));
    }
    // Copied first, so that want of memory hides no fault.
    let (Ok(old), Ok(new)) = (job.old.copy(), job.new.copy()) else {
        return Err(CheckError::OutOfMemory);
    };
    let answer = test_all(alloc, server, fs, job);
    judged_all(old, new, answer)
}

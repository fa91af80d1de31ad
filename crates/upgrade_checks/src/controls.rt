// The conditions on data directories, releases and control files.
ghost use Rattle.std.specs.Prelude.{◌≡◌, true, false, IfOk};
ghost use Rattle.control_checks.specs.Findings.{overlaps};
ghost use Rattle.control_checks.specs.Records.{AreControls};
ghost use Rattle.upgrade_checks.specs.Findings.{Readings};
ghost use Rattle.upgrade_checks.specs.Parts.{control_part, early_part};
ghost use Rattle.upgrade_checks.specs.Answers.{Tested, judged_controls};

use crate::stop::Stop;
use crate::trees::test_both_prepared;
use compat_checks::lifted;
use control_checks::{CheckStop, Controls, check_controls};
use control_file::Job;
use fs_model::Fs;
use std::alloc::Global;

/// Whether one data directory is under the other.
pub(crate) fn overlaps(job: &Job) -> bool
    ensures { result ≡ overlaps job.now }
{
    job.old.is_under(&job.new) || job.new.is_under(&job.old)
}

// The answer of these conditions' test.
fn judged_controls(answer: Result<Controls, CheckStop>) -> Result<Controls, Stop>
    ensures { result ≡ judged_controls answer }
{
    match answer {
        Ok(controls) => Ok(controls),
        Err(CheckStop::Refused(refusal)) => Err(Stop::Refused(lifted(refusal))),
        Err(CheckStop::Failed(side)) => Err(Stop::Failed(side)),
        Err(CheckStop::OutOfMemory) => Err(Stop::OutOfMemory),
    }
}

fn test_controls<F: Fs>(alloc: Global, fs: &mut F, job: &Job) -> Result<Controls, Stop>
    ensures tested { (readings : Readings) → Tested false job.now readings control_part (record { told = F.told fs.old; firm = F.firm fs.old; depth = F.depth fs.old; trail = F.trail fs.old; counts = F.counts fs.old })
        (record { told = F.told fs.new; firm = F.firm fs.new; depth = F.depth fs.new; trail = F.trail fs.new; counts = F.counts fs.new }) result }
    ensures read { F.told fs.old ≡ true → IfOk result (λ read. AreControls (F.trail fs.old).present job.now read) }
{
    let answer = check_controls(alloc, fs, job);
    judged_controls(answer)
}

/// The conditions that are tested before a server reads anything.
pub(crate) fn test_before<F: Fs>(alloc: Global, fs: &mut F, job: &Job) -> Result<Controls, Stop>
    ensures tested { (readings : Readings) → Tested false job.now readings early_part (record { told = F.told fs.old; firm = F.firm fs.old; depth = F.depth fs.old; trail = F.trail fs.old; counts = F.counts fs.old })
        (record { told = F.told fs.new; firm = F.firm fs.new; depth = F.depth fs.new; trail = F.trail fs.new; counts = F.counts fs.new }) result }
    ensures read { F.told fs.old ≡ true → IfOk result (λ read. AreControls (F.trail fs.old).present job.now read) }
{
    let controls = test_controls(alloc, fs, job)?;
    test_both_prepared(alloc, fs, job)?;
    Ok(controls)
}

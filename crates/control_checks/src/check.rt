// The conditions in their order.
ghost use Rattle.std.specs.Prelude.{◌≡◌, true, IfOk};
ghost use Rattle.fs_model.specs.WellFormed.{WellFormed};
ghost use Rattle.fs_model.specs.Observed.{OnlyReads};
ghost use Rattle.control_checks.specs.Answers.{stop_of, Tells};
ghost use Rattle.control_checks.specs.Findings.{overlaps, first_of, tested_conditions, order};
ghost use Rattle.control_checks.specs.Records.{AreControls};

use crate::clusters::{test_roots, test_servers};
use crate::controls::read_controls;
use crate::records::Controls;
use crate::refusal::ControlRefusal;
use crate::stop::CheckStop;
use control_file::Job;
use fs_model::Fs;
use std::alloc::Global;

fn overlaps(job: &Job) -> bool
    ensures { result ≡ overlaps job.now }
{
    job.old.is_under(&job.new) || job.new.is_under(&job.old)
}

// The conditions that are seen in the file system.
fn test_clusters<F: Fs>(alloc: Global, fs: &mut F, job: &Job) -> Result<Controls, CheckStop>
    ensures reads { OnlyReads (record { told = F.told fs.old; firm = F.firm fs.old; depth = F.depth fs.old; trail = F.trail fs.old; counts = F.counts fs.old })
        (record { told = F.told fs.new; firm = F.firm fs.new; depth = F.depth fs.new; trail = F.trail fs.new; counts = F.counts fs.new }) (stop_of result) }
    ensures tells { F.told fs.old ≡ true → WellFormed (F.trail fs.old).present → Tells (first_of (F.trail fs.old).present job.now tested_conditions) result }
    ensures read { F.told fs.old ≡ true → WellFormed (F.trail fs.old).present → IfOk result (λ read. AreControls (F.trail fs.old).present job.now read) }
{
    test_roots(alloc, fs, job)?;
    test_servers(fs, job)?;
    read_controls(alloc, fs, job)
}

/// Tests the conditions on the two data directories, their releases, the servers in them and their control files, in their
/// order, and stops at the first that holds. Where none does, both control records are given. No state is changed, and a
/// refusal of the file system is a finding and never an error.
pub fn check_controls<F: Fs>(alloc: Global, fs: &mut F, job: &Job) -> Result<Controls, CheckStop>
    ensures reads { OnlyReads (record { told = F.told fs.old; firm = F.firm fs.old; depth = F.depth fs.old; trail = F.trail fs.old; counts = F.counts fs.old })
        (record { told = F.told fs.new; firm = F.firm fs.new; depth = F.depth fs.new; trail = F.trail fs.new; counts = F.counts fs.new }) (stop_of result) }
    ensures tells { F.told fs.old ≡ true → Tells (first_of (F.trail fs.old).present job.now order) result }
    ensures read { F.told fs.old ≡ true → IfOk result (λ read. AreControls (F.trail fs.old).present job.now read) }
{
    let _seen = fs.moment();
    if overlaps(job) {
        return Err(CheckStop::Refused(ControlRefusal::Overlap));
    }
    test_clusters(alloc, fs, job)
}

// The conditions on the control files.
ghost use Rattle.std.specs.Prelude.{◌≡◌, true, IfOk, Some};
ghost use Rattle.std.specs.Result.{MatchResult};
ghost use Rattle.fs_model.specs.Reading.{file_bytes};
ghost use Rattle.fs_model.specs.WellFormed.{WellFormed};
ghost use Rattle.fs_model.specs.Observed.{OnlyReads};
ghost use Rattle.control_file.specs.declared.modes.Side.TheVariants.{Old, New};
ghost use Rattle.control_file.specs.declared.releases.Release.TheVariants.{V15, V16};
ghost use Rattle.control_file.specs.ControlRecord.{control_in};
ghost use Rattle.control_checks.specs.Answers.{stop_of, refused, Tells};
ghost use Rattle.control_checks.specs.Places.{control_path};
ghost use Rattle.control_checks.specs.Findings.{no_control, reading_in, first_of, control_conditions};
ghost use Rattle.control_checks.specs.Causes.{first_by_records, first_by_contents};
ghost use Rattle.control_checks.specs.Records.{SaysControl, AreControls};

use crate::fields::{earlier, refusal_by, test_fields};
use crate::looks::file_at;
use crate::paths::control_path;
use crate::records::{Controls, control_of};
use crate::refusal::ControlRefusal;
use crate::stop::CheckStop;
use control_file::{Job, Side};
use fs_model::{Bytes, Fs, Path};
use std::alloc::Global;

// The bytes of a cluster's control file.
fn control_bytes<F: Fs>(
    alloc: Global,
    fs: &mut F,
    side: Side,
    root: &Path,
) -> Result<Bytes, CheckStop>
    ensures reads { OnlyReads (record { told = F.told fs.old; firm = F.firm fs.old; depth = F.depth fs.old; trail = F.trail fs.old; counts = F.counts fs.old })
        (record { told = F.told fs.new; firm = F.firm fs.new; depth = F.depth fs.new; trail = F.trail fs.new; counts = F.counts fs.new }) (stop_of result) }
    ensures tells { F.told fs.old ≡ true → WellFormed (F.trail fs.old).present → Tells (no_control side (reading_in side (file_bytes (F.trail fs.old).present (control_path root.now)))) result }
    ensures file { F.told fs.old ≡ true → WellFormed (F.trail fs.old).present → IfOk result (λ bytes. file_bytes (F.trail fs.old).present (control_path root.now) ≡ Some bytes) }
{
    let at = control_path(root)?;
    match file_at(alloc, fs, side, &at)? {
        Some(bytes) => Ok(bytes),
        None => Err(CheckStop::Refused(ControlRefusal::NoControl(side))),
    }
}

// What both control files say, where both are read.
fn both_of(old: &[u8], new: &[u8]) -> Result<Controls, ControlRefusal>
    ensures { MatchResult result (λ read. SaysControl Old old.now read.old × SaysControl New new.now read.new)
        (λ refusal. first_by_records (Some (control_in old.now V15)) (Some (control_in new.now V16)) ≡ Some refusal) }
{
    match (control_of(Side::Old, old), control_of(Side::New, new)) {
        (Ok(old), Ok(new)) => Ok(Controls { old, new }),
        (Err(cause), Ok(_)) => Err(refusal_by(Side::Old, cause)),
        (Ok(_), Err(cause)) => Err(refusal_by(Side::New, cause)),
        (Err(first), Err(second)) => Err(earlier(first, second)),
    }
}

// What both control files say, where an upgrade takes it.
fn accepted(old: &[u8], new: &[u8]) -> Result<Controls, ControlRefusal>
    ensures refused { refused result ≡ first_by_contents old.now new.now }
    ensures read { IfOk result (λ read. SaysControl Old old.now read.old × SaysControl New new.now read.new) }
{
    let controls = both_of(old, new)?;
    test_fields(&controls.old.control, &controls.new.control)?;
    Ok(controls)
}

/// Both control records, where all conditions on them are met.
pub(crate) fn read_controls<F: Fs>(
    alloc: Global,
    fs: &mut F,
    job: &Job,
) -> Result<Controls, CheckStop>
    ensures reads { OnlyReads (record { told = F.told fs.old; firm = F.firm fs.old; depth = F.depth fs.old; trail = F.trail fs.old; counts = F.counts fs.old })
        (record { told = F.told fs.new; firm = F.firm fs.new; depth = F.depth fs.new; trail = F.trail fs.new; counts = F.counts fs.new }) (stop_of result) }
    ensures tells { F.told fs.old ≡ true → WellFormed (F.trail fs.old).present → Tells (first_of (F.trail fs.old).present job.now control_conditions) result }
    ensures read { F.told fs.old ≡ true → WellFormed (F.trail fs.old).present → IfOk result (λ read. AreControls (F.trail fs.old).present job.now read) }
{
    let old = control_bytes(alloc, fs, Side::Old, &job.old)?;
    let new = control_bytes(alloc, fs, Side::New, &job.new)?;
    let controls = accepted(old.bytes(), new.bytes())?;
    Ok(controls)
}

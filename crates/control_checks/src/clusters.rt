// The conditions on the data directories, their releases and the servers that may run in them.
ghost use Rattle.std.specs.Prelude.{◌≡◌, ◌∷◌, [], true, IfOk, Some, bytes_eq};
ghost use Rattle.fs_model.specs.Reading.{file_bytes};
ghost use Rattle.fs_model.specs.WellFormed.{WellFormed};
ghost use Rattle.fs_model.specs.Observed.{OnlyReads};
ghost use Rattle.control_file.specs.declared.modes.Side.TheVariants.{Old, New};
ghost use Rattle.control_checks.specs.Answers.{stop_of, refused, Tells};
ghost use Rattle.control_checks.specs.Places.{version_path, pid_path, control_path, disabled_path};
ghost use Rattle.control_checks.specs.Findings.{kind_at, is_dir, missing_dir, missing_version, wrong_version, running, old_disabled, or_first, HasDir, first_of, version_conditions, root_conditions, server_conditions};

use crate::looks::{file_at, kind_at};
use crate::paths::{control_path, disabled_path, pid_path, release_of, version_path};
use crate::refusal::ControlRefusal;
use crate::stop::CheckStop;
use control_file::{Job, Side};
use fs_model::{Bytes, Fs, Kind, Path};
use std::alloc::Global;

// ---- each condition, by what stands

fn is_dir(kind: Option<Kind>) -> bool
    ensures { result ≡ is_dir kind }
{
    match kind {
        Some(Kind::Dir) => true,
        Some(Kind::File) => false,
        Some(Kind::Sym) => false,
        None => false,
    }
}

fn missing_dir(side: Side, root: Option<Kind>) -> Result<(), ControlRefusal>
    ensures { refused result ≡ missing_dir side root }
{
    if is_dir(root) {
        Ok(())
    } else {
        Err(ControlRefusal::MissingDir(side))
    }
}

// Whether the bytes are these.
fn same_bytes(bytes: &[u8], others: &[u8]) -> bool
    ensures { result ≡ bytes_eq bytes.now others.now }
{
    bytes == others
}

fn wrong_version(side: Side, version: &Bytes) -> Result<(), ControlRefusal>
    ensures { refused result ≡ wrong_version side (Some version.now) }
{
    if same_bytes(version.bytes(), release_of(side).version_text()) {
        Ok(())
    } else {
        Err(ControlRefusal::WrongVersion(side))
    }
}

fn running(side: Side, pid: Option<Kind>) -> Result<(), ControlRefusal>
    ensures { refused result ≡ running side pid }
{
    match pid {
        Some(_) => Err(ControlRefusal::Running(side)),
        None => Ok(()),
    }
}

fn old_disabled(control: Option<Kind>, disabled: Option<Kind>) -> Result<(), ControlRefusal>
    ensures { refused result ≡ old_disabled control disabled }
{
    match (control, disabled) {
        (None, Some(_)) => Err(ControlRefusal::OldDisabled),
        (None, None) => Ok(()),
        (Some(_), _) => Ok(()),
    }
}

// ---- the data directories and their releases

fn test_dir<F: Fs>(fs: &mut F, side: Side, root: &Path) -> Result<(), CheckStop>
    ensures reads { OnlyReads (record { told = F.told fs.old; firm = F.firm fs.old; depth = F.depth fs.old; trail = F.trail fs.old; counts = F.counts fs.old })
        (record { told = F.told fs.new; firm = F.firm fs.new; depth = F.depth fs.new; trail = F.trail fs.new; counts = F.counts fs.new }) (stop_of result) }
    ensures tells { F.told fs.old ≡ true → WellFormed (F.trail fs.old).present → Tells (missing_dir side (kind_at (F.trail fs.old).present root.now)) result }
{
    let kind = kind_at(fs, side, root)?;
    missing_dir(side, kind)?;
    Ok(())
}

fn test_dirs<F: Fs>(fs: &mut F, job: &Job) -> Result<(), CheckStop>
    ensures reads { OnlyReads (record { told = F.told fs.old; firm = F.firm fs.old; depth = F.depth fs.old; trail = F.trail fs.old; counts = F.counts fs.old })
        (record { told = F.told fs.new; firm = F.firm fs.new; depth = F.depth fs.new; trail = F.trail fs.new; counts = F.counts fs.new }) (stop_of result) }
    ensures tells { F.told fs.old ≡ true → WellFormed (F.trail fs.old).present → Tells (first_of (F.trail fs.old).present job.now (HasDir Old ∷ HasDir New ∷ [])) result }
{
    test_dir(fs, Side::Old, &job.old)?;
    test_dir(fs, Side::New, &job.new)
}

// The bytes of a cluster's `PG_VERSION`.
fn version_of<F: Fs>(alloc: Global, fs: &mut F, side: Side, root: &Path) -> Result<Bytes, CheckStop>
    ensures reads { OnlyReads (record { told = F.told fs.old; firm = F.firm fs.old; depth = F.depth fs.old; trail = F.trail fs.old; counts = F.counts fs.old })
        (record { told = F.told fs.new; firm = F.firm fs.new; depth = F.depth fs.new; trail = F.trail fs.new; counts = F.counts fs.new }) (stop_of result) }
    ensures tells { F.told fs.old ≡ true → WellFormed (F.trail fs.old).present → Tells (missing_version side (file_bytes (F.trail fs.old).present (version_path root.now))) result }
    ensures version { F.told fs.old ≡ true → WellFormed (F.trail fs.old).present → IfOk result (λ bytes. file_bytes (F.trail fs.old).present (version_path root.now) ≡ Some bytes) }
{
    let at = version_path(root)?;
    match file_at(alloc, fs, side, &at)? {
        Some(bytes) => Ok(bytes),
        None => Err(CheckStop::Refused(ControlRefusal::MissingVersion(side))),
    }
}

fn test_texts(old: &Bytes, new: &Bytes) -> Result<(), ControlRefusal>
    ensures { refused result ≡ or_first (wrong_version Old (Some old.now)) (wrong_version New (Some new.now)) }
{
    wrong_version(Side::Old, old)?;
    wrong_version(Side::New, new)
}

fn test_versions<F: Fs>(alloc: Global, fs: &mut F, job: &Job) -> Result<(), CheckStop>
    ensures reads { OnlyReads (record { told = F.told fs.old; firm = F.firm fs.old; depth = F.depth fs.old; trail = F.trail fs.old; counts = F.counts fs.old })
        (record { told = F.told fs.new; firm = F.firm fs.new; depth = F.depth fs.new; trail = F.trail fs.new; counts = F.counts fs.new }) (stop_of result) }
    ensures tells { F.told fs.old ≡ true → WellFormed (F.trail fs.old).present → Tells (first_of (F.trail fs.old).present job.now version_conditions) result }
{
    let old = version_of(alloc, fs, Side::Old, &job.old)?;
    let new = version_of(alloc, fs, Side::New, &job.new)?;
    test_texts(&old, &new)?;
    Ok(())
}

/// Whether both data directories stand, each of its release.
pub(crate) fn test_roots<F: Fs>(alloc: Global, fs: &mut F, job: &Job) -> Result<(), CheckStop>
    ensures reads { OnlyReads (record { told = F.told fs.old; firm = F.firm fs.old; depth = F.depth fs.old; trail = F.trail fs.old; counts = F.counts fs.old })
        (record { told = F.told fs.new; firm = F.firm fs.new; depth = F.depth fs.new; trail = F.trail fs.new; counts = F.counts fs.new }) (stop_of result) }
    ensures tells { F.told fs.old ≡ true → WellFormed (F.trail fs.old).present → Tells (first_of (F.trail fs.old).present job.now root_conditions) result }
{
    test_dirs(fs, job)?;
    test_versions(alloc, fs, job)
}

// ---- the servers

fn test_pid<F: Fs>(fs: &mut F, side: Side, root: &Path) -> Result<(), CheckStop>
    ensures reads { OnlyReads (record { told = F.told fs.old; firm = F.firm fs.old; depth = F.depth fs.old; trail = F.trail fs.old; counts = F.counts fs.old })
        (record { told = F.told fs.new; firm = F.firm fs.new; depth = F.depth fs.new; trail = F.trail fs.new; counts = F.counts fs.new }) (stop_of result) }
    ensures tells { F.told fs.old ≡ true → WellFormed (F.trail fs.old).present → Tells (running side (kind_at (F.trail fs.old).present (pid_path root.now))) result }
{
    let at = pid_path(root)?;
    let kind = kind_at(fs, side, &at)?;
    running(side, kind)?;
    Ok(())
}

fn test_disabled<F: Fs>(fs: &mut F, root: &Path) -> Result<(), CheckStop>
    ensures reads { OnlyReads (record { told = F.told fs.old; firm = F.firm fs.old; depth = F.depth fs.old; trail = F.trail fs.old; counts = F.counts fs.old })
        (record { told = F.told fs.new; firm = F.firm fs.new; depth = F.depth fs.new; trail = F.trail fs.new; counts = F.counts fs.new }) (stop_of result) }
    ensures tells { F.told fs.old ≡ true → WellFormed (F.trail fs.old).present → Tells (old_disabled (kind_at (F.trail fs.old).present (control_path root.now)) (kind_at (F.trail fs.old).present (disabled_path root.now))) result }
{
    let control = control_path(root)?;
    let disabled = disabled_path(root)?;
    let enabled = kind_at(fs, Side::Old, &control)?;
    let renamed = kind_at(fs, Side::Old, &disabled)?;
    old_disabled(enabled, renamed)?;
    Ok(())
}

/// Whether no server may be running, and the old cluster isn't disabled.
pub(crate) fn test_servers<F: Fs>(fs: &mut F, job: &Job) -> Result<(), CheckStop>
    ensures reads { OnlyReads (record { told = F.told fs.old; firm = F.firm fs.old; depth = F.depth fs.old; trail = F.trail fs.old; counts = F.counts fs.old })
        (record { told = F.told fs.new; firm = F.firm fs.new; depth = F.depth fs.new; trail = F.trail fs.new; counts = F.counts fs.new }) (stop_of result) }
    ensures tells { F.told fs.old ≡ true → WellFormed (F.trail fs.old).present → Tells (first_of (F.trail fs.old).present job.now server_conditions) result }
{
    test_pid(fs, Side::Old, &job.old)?;
    test_pid(fs, Side::New, &job.new)?;
    test_disabled(fs, &job.old)
}

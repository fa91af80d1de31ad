// The phases of an upgrade, one after another.
ghost use Rattle.std.specs.Prelude.{◌≡◌, true, false, IfOk, IfErr};
ghost use Rattle.fs_model.specs.Crash.{Settled};
ghost use Rattle.fs_model.specs.Trail.{Trail, Since, Unchanged, HasCause, unless_lack};
ghost use Rattle.fs_model.specs.WellFormed.{WellFormed};
ghost use Rattle.control_file.specs.declared.modes.Side.{Side as ASide};
ghost use Rattle.upgraded.specs.Upgraded.{ReadsCatalog};
ghost use Rattle.phase_facts.specs.Held.{IsSafeSince};
ghost use Rattle.phase_frames.specs.Framed.{IsFramed};
ghost use Rattle.phases.specs.Faults.{fault_in, files_error, root_of, IsOfFiles, IsNoChange, HasPhaseCause};
ghost use Rattle.phases.specs.Facts.{LinksKnownSince, IsChecked, IsRestored, IsStatused, IsTransferred};
ghost use Rattle.upgrade_run.specs.Causes.{UpgradeHasCause, ServerCounted, failure_in};
ghost use Rattle.upgrade_run.specs.Means.{LeavesAll, IfDone, HasBegun, UpgradeMeans};
ghost use Rattle.upgrade_run.specs.Ends.{IsFailedIn, IsLackCounted, CrashesSafely, EndsFinished};

use crate::answers::{check_answer, phases_answer};
use catalog_server::Server;
use control_file::{Job, Mode};
use fs_model::Fs;
use phase_names::Summary;
use phases::{Checked, PhaseError, Restored, Statused, Transferred};
use std::alloc::Global;
use upgrade_answers::Answer;
use upgrade_checks::check;

// Carries the status of transactions and the counters, and prepares what the later phases need.
fn prepare<F: Fs>(alloc: Global, fs: &mut F, restored: Restored) -> Result<Statused, PhaseError>
    requires fact { F.told fs.old ≡ true → (read : ReadsCatalog) × (opening : Trail) × IsRestored read restored opening (F.trail fs.old) }
    ensures told { F.told fs.new ≡ F.told fs.old }
    ensures firm { F.firm fs.new ≡ F.firm fs.old }
    ensures frame { F.told fs.old ≡ true → (read : ReadsCatalog) (opening : Trail) → IsRestored read restored opening (F.trail fs.old) → IsFramed restored.job opening.present (F.trail fs.old).present → Since (IsFramed restored.job opening.present) (F.trail fs.old) (F.trail fs.new) }
    ensures job { IfOk result (λ next. next.job ≡ restored.job) }
    ensures fact { F.told fs.old ≡ true → (read : ReadsCatalog) (opening : Trail) → IsRestored read restored opening (F.trail fs.old) → IfOk result (λ next. IsStatused read next opening (F.trail fs.new)) }
    ensures safe { F.told fs.old ≡ true → (read : ReadsCatalog) (opening : Trail) → IsRestored read restored opening (F.trail fs.old) → IsSafeSince restored.job opening (F.trail fs.new) }
    ensures links { F.told fs.old ≡ true → (read : ReadsCatalog) (opening : Trail) → IsRestored read restored opening (F.trail fs.old) → Settled opening.present → LinksKnownSince restored.job opening (F.trail fs.new) }
    ensures unrefused { F.told fs.old ≡ true → (read : ReadsCatalog) (opening : Trail) → IsRestored read restored opening (F.trail fs.old) → IfErr result (λ error. IsNoChange error.kind) }
    ensures fault { IfErr result (IsFailedIn restored.job) }
    ensures files { IfErr result (λ error. (side : ASide) × IsOfFiles (root_of restored.job side) error.kind) }
    ensures lacked { IfErr result (IsLackCounted (F.counts fs.old) (F.counts fs.new)) }
    ensures cause { HasCause (F.firm fs.old) (F.counts fs.old) (F.counts fs.new) (unless_lack (files_error (fault_in result))) }
{
    restored.status(alloc, fs)
}

// Carries the relation files in the job's mode.
fn transfer<F: Fs>(fs: &mut F, mode: Mode, statused: Statused) -> Result<Transferred, PhaseError>
    requires mode { mode ≡ statused.job.mode }
    requires fact { F.told fs.old ≡ true → (read : ReadsCatalog) × (opening : Trail) × IsStatused read statused opening (F.trail fs.old) }
    ensures told { F.told fs.new ≡ F.told fs.old }
    ensures firm { F.firm fs.new ≡ F.firm fs.old }
    ensures frame { F.told fs.old ≡ true → (read : ReadsCatalog) (opening : Trail) → IsStatused read statused opening (F.trail fs.old) → IsFramed statused.job opening.present (F.trail fs.old).present → Since (IsFramed statused.job opening.present) (F.trail fs.old) (F.trail fs.new) }
    ensures job { IfOk result (λ next. next.job ≡ statused.job) }
    ensures fact { F.told fs.old ≡ true → (read : ReadsCatalog) (opening : Trail) → IsStatused read statused opening (F.trail fs.old) → IfOk result (λ next. IsTransferred read next opening (F.trail fs.new)) }
    ensures safe { F.told fs.old ≡ true → (read : ReadsCatalog) (opening : Trail) → IsStatused read statused opening (F.trail fs.old) → IsSafeSince statused.job opening (F.trail fs.new) }
    ensures links { F.told fs.old ≡ true → (read : ReadsCatalog) (opening : Trail) → IsStatused read statused opening (F.trail fs.old) → Settled opening.present → LinksKnownSince statused.job opening (F.trail fs.new) }
    ensures unrefused { F.told fs.old ≡ true → (read : ReadsCatalog) (opening : Trail) → IsStatused read statused opening (F.trail fs.old) → IfErr result (λ error. IsNoChange error.kind) }
    ensures fault { IfErr result (IsFailedIn statused.job) }
    ensures files { IfErr result (λ error. (side : ASide) × IsOfFiles (root_of statused.job side) error.kind) }
    ensures lacked { IfErr result (IsLackCounted (F.counts fs.old) (F.counts fs.new)) }
    ensures cause { HasCause (F.firm fs.old) (F.counts fs.old) (F.counts fs.new) (unless_lack (files_error (fault_in result))) }
{
    match mode {
        Mode::Copy => statused.copy(fs),
        Mode::Link => statused.disable(fs)?.link(fs),
    }
}

// All phases behind the checks.
fn carry<F: Fs, S: Server<F>>(
    alloc: Global,
    server: &mut S,
    fs: &mut F,
    mode: Mode,
    checked: Checked,
) -> Result<Summary, PhaseError>
    requires mode { mode ≡ checked.job.mode }
    requires fact { F.told fs.old ≡ true → (opening : Trail) × IsChecked S.catalog_of checked opening (F.trail fs.old) }
    ensures told { F.told fs.new ≡ F.told fs.old }
    ensures firm { F.firm fs.new ≡ F.firm fs.old }
    ensures frame { F.told fs.old ≡ true → (opening : Trail) → IsChecked S.catalog_of checked opening (F.trail fs.old) → IsFramed checked.job opening.present (F.trail fs.old).present → Since (IsFramed checked.job opening.present) (F.trail fs.old) (F.trail fs.new) }
    ensures crashes { F.told fs.old ≡ true → (opening : Trail) → IsChecked S.catalog_of checked opening (F.trail fs.old) → Settled opening.present → CrashesSafely S.catalog_of checked.job opening (F.trail fs.new) }
    ensures finished { F.told fs.old ≡ true → (opening : Trail) → IsChecked S.catalog_of checked opening (F.trail fs.old) → IfOk result (EndsFinished S.catalog_of checked.job opening.present (F.trail fs.new).present) }
    ensures unrefused { F.told fs.old ≡ true → (opening : Trail) → IsChecked S.catalog_of checked opening (F.trail fs.old) → IfErr result (λ error. IsNoChange error.kind) }
    ensures fault { IfErr result (IsFailedIn checked.job) }
    ensures lacked { IfErr result (IsLackCounted (F.counts fs.old) (F.counts fs.new)) }
    ensures cause { HasPhaseCause (F.firm fs.old) (F.counts fs.old) (F.counts fs.new) (S.counts server.old) (S.counts server.new) (fault_in result) }
{
    let restored = checked.restore(alloc, server, fs)?;
    let statused = prepare(alloc, fs, restored)?;
    let transferred = transfer(fs, mode, statused)?;
    match transferred.finish(alloc, fs) {
        Ok(finished) => Ok(finished.summary()),
        Err(error) => Err(error),
    }
}

/// Checks the two clusters and carries the one into the other.
pub(crate) fn upgrade<F: Fs, S: Server<F>>(
    alloc: Global,
    server: &mut S,
    fs: &mut F,
    job: Job,
) -> Answer
    requires well_formed { F.told fs.old ≡ true → WellFormed (F.trail fs.old).present }
    ensures told { F.told fs.new ≡ F.told fs.old }
    ensures firm { F.firm fs.new ≡ F.firm fs.old }
    ensures begun { HasBegun result }
    ensures unchanged { F.told fs.old ≡ true → LeavesAll result → Unchanged (F.trail fs.old) (F.trail fs.new) }
    ensures means { F.told fs.old ≡ true → UpgradeMeans S.catalog_of (F.trail fs.old).present job result }
    ensures frame { F.told fs.old ≡ true → Since (IsFramed job (F.trail fs.old).present) (F.trail fs.old) (F.trail fs.new) }
    ensures crashes { F.told fs.old ≡ true → Settled (F.trail fs.old).present → (LeavesAll result → ⊥) → CrashesSafely S.catalog_of job (F.trail fs.old) (F.trail fs.new) }
    ensures finished { F.told fs.old ≡ true → IfDone result (EndsFinished S.catalog_of job (F.trail fs.old).present (F.trail fs.new).present) }
    ensures own_cause { UpgradeHasCause job false result (F.counts fs.old) (F.counts fs.new) (S.counts server.old) (S.counts server.new) }
    ensures counts { HasCause (F.firm fs.old) (F.counts fs.old) (F.counts fs.new) (failure_in result) }
    ensures server { ServerCounted (S.counts server.old) (S.counts server.new) result }
{
    let mode = job.mode;
    match check(alloc, server, fs, &job) {
        Ok(passed) => {
            // A catalog that a server gives is valid.
            let _ = passed.old_catalog.bootstrap();
            let checked = Checked::new(passed, job);
            phases_answer(carry(alloc, server, fs, mode, checked))
        }
        Err(error) => check_answer(error),
    }
}

/// Checks the two clusters alone. Nothing is changed.
pub(crate) fn check_only<F: Fs, S: Server<F>>(
    alloc: Global,
    server: &mut S,
    fs: &mut F,
    job: &Job,
) -> Answer
    ensures told { F.told fs.new ≡ F.told fs.old }
    ensures firm { F.firm fs.new ≡ F.firm fs.old }
    ensures begun { HasBegun result }
    ensures unchanged { F.told fs.old ≡ true → Unchanged (F.trail fs.old) (F.trail fs.new) }
    ensures frame { F.told fs.old ≡ true → Since (IsFramed job.now (F.trail fs.old).present) (F.trail fs.old) (F.trail fs.new) }
    ensures leaves { F.told fs.old ≡ true → LeavesAll result }
    ensures means { F.told fs.old ≡ true → UpgradeMeans S.catalog_of (F.trail fs.old).present job.now result }
    ensures own_cause { UpgradeHasCause job.now true result (F.counts fs.old) (F.counts fs.new) (S.counts server.old) (S.counts server.new) }
    ensures counts { HasCause (F.firm fs.old) (F.counts fs.old) (F.counts fs.new) (failure_in result) }
    ensures server { ServerCounted (S.counts server.old) (S.counts server.new) result }
{
    match check(alloc, server, fs, job) {
        Ok(_) => Answer::Checked,
        Err(error) => check_answer(error),
    }
}

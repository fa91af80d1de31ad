// What the phase of the transactions' status does: it carries them, and builds what the later phases need.
ghost use Rattle.std.specs.Prelude.{◌≡◌, ◌≢◌, ◌<◌, true, None, length, IfOk, IfErr, OnOk};
ghost use Rattle.fs_model.specs.declared.error.FsError.TheVariants.{OutOfMemory};
ghost use Rattle.fs_model.specs.Trail.{DecidedBy, HasCause, error_of, unless_lack};
ghost use Rattle.fs_model.specs.Observed.{OnlyReads};
ghost use Rattle.crash_safety.specs.Places.{control_at};
ghost use Rattle.status_transfer.specs.Counted.{IsHeadOf};
ghost use Rattle.status_transfer.specs.Status.{HoldsStatus};
ghost use Rattle.relation_map.specs.Pairs.{entries_of};
ghost use Rattle.plan_build.specs.Plannable.{CanBePlanned, IsPlanOf};
ghost use Rattle.phase_facts.specs.Finishing.{AreEndPlaces};
ghost use Rattle.phases.specs.Preparing.{CarriesTransactions, CarriesThenReads, HasTransactions};
ghost use Rattle.phases.specs.Facts.{AreControlPaths};

use crate::Restored;
use crate::places::places_of;
use crate::prepared::Prepared;
use catalog::Catalog;
use compat_checks::Passed;
use control_file::Job;
use disable_old::paths;
use fs_model::{Fs, FsError, Path};
use plan_build::plan_of;
use relation_map::build;
use status_transfer::{carry_status, set_counters};
use std::alloc::{AllocError, Global};
use transfer_plan::Plan;

/// How many bytes are copied at a time.
const BUFFER_BYTES: usize = 65_536;

// Zeros to copy through.
fn zeros(alloc: Global, count: usize) -> Result<Vec<u8>, AllocError>
    requires { 0 < count }
    ensures { IfOk result (λ zeros. 0 < length zeros.items) }
{
    Ok(vec![in alloc; 0u8; count]?)
}

// The path of a cluster's control file.
fn control_path(root: &Path) -> Result<Path, FsError>
    ensures path { IfOk result (λ path. path ≡ control_at root.now) }
    ensures lack { IfErr result (λ error. error ≡ OutOfMemory) }
{
    match root.join(&["global", "pg_control"]) {
        Ok(path) => Ok(path),
        Err(_) => Err(FsError::OutOfMemory),
    }
}

// Carries the status of the old cluster's transactions into the new one, and its counters.
fn carry_transactions<F: Fs>(
    alloc: Global,
    fs: &mut F,
    job: &Job,
    passed: &Passed,
) -> Result<(), FsError>
    ensures told { F.told fs.new ≡ F.told fs.old }
    ensures firm { F.firm fs.new ≡ F.firm fs.old }
    ensures calls { F.told fs.old ≡ true → CarriesTransactions job.now (F.trail fs.old) (F.trail fs.new) }
    ensures unrefused { F.told fs.old ≡ true → job.now.old ≢ job.now.new → HoldsStatus (F.trail fs.old).present.names job.now.old → HoldsStatus (F.trail fs.old).present.names job.now.new → IsHeadOf (F.trail fs.old).present (control_at job.now.new) passed.now.new_record → DecidedBy None result }
    ensures carried { F.told fs.old ≡ true → job.now.old ≢ job.now.new → IsHeadOf (F.trail fs.old).present (control_at job.now.new) passed.now.new_record → OnOk result (HasTransactions job.now passed.now.old_control.counters (F.trail fs.old).present (F.trail fs.new).present) }
    ensures cause { HasCause (F.firm fs.old) (F.counts fs.old) (F.counts fs.new) (unless_lack (error_of result)) }
{
    // It says that the state is well-formed.
    let _ = fs.moment();
    let control = control_path(&job.new)?;
    carry_status(alloc, fs, job)?;
    let mut head = passed.new_record;
    set_counters(fs, &control, &mut head, &passed.old_control.counters)
}

// The plan of the transfer, for two catalogs that are equal.
fn make_plan<F: Fs>(
    alloc: Global,
    fs: &mut F,
    job: &Job,
    old: &Catalog,
    new: &Catalog,
) -> Result<Plan, FsError>
    requires { F.told fs.old ≡ true → new.now ≡ old.now }
    ensures reads { OnlyReads (record { told = F.told fs.old; firm = F.firm fs.old; depth = F.depth fs.old; trail = F.trail fs.old; counts = F.counts fs.old })
        (record { told = F.told fs.new; firm = F.firm fs.new; depth = F.depth fs.new; trail = F.trail fs.new; counts = F.counts fs.new }) (unless_lack (error_of result)) }
    ensures plan { F.told fs.old ≡ true → CanBePlanned (F.trail fs.old).present (entries_of job.now old.now new.now) → IfOk result (λ plan. IsPlanOf (F.trail fs.old).present (entries_of job.now old.now new.now) plan) }
    ensures unrefused { DecidedBy None result }
{
    match build(alloc, old, new, job) {
        Ok(map) => plan_of(alloc, fs, &map),
        // Equal catalogs have a map.
        Err(_) => Err(FsError::OutOfMemory),
    }
}

// Builds what the later phases need besides the plan.
fn with_plan(alloc: Global, job: &Job, catalog: &Catalog, plan: Plan) -> Result<Prepared, FsError>
    ensures plan { IfOk result (λ prepared. prepared.plan ≡ plan) }
    ensures paths { IfOk result (λ prepared. AreControlPaths job.now prepared.control) }
    ensures places { IfOk result (λ prepared. AreEndPlaces job.now catalog.now prepared.places) }
    ensures lack { IfErr result (λ error. error ≡ OutOfMemory) }
{
    let Ok(control) = paths(alloc, &job.old) else {
        return Err(FsError::OutOfMemory);
    };
    let places = places_of(alloc, &job.new, catalog)?;
    let buffer = zeros(alloc, BUFFER_BYTES)?;
    Ok(Prepared {
        plan,
        control,
        places,
        buffer,
    })
}

// Builds what the later phases need, for two catalogs that are equal.
fn prepare<F: Fs>(
    alloc: Global,
    fs: &mut F,
    job: &Job,
    old: &Catalog,
    new: &Catalog,
) -> Result<Prepared, FsError>
    requires { F.told fs.old ≡ true → new.now ≡ old.now }
    ensures reads { OnlyReads (record { told = F.told fs.old; firm = F.firm fs.old; depth = F.depth fs.old; trail = F.trail fs.old; counts = F.counts fs.old })
        (record { told = F.told fs.new; firm = F.firm fs.new; depth = F.depth fs.new; trail = F.trail fs.new; counts = F.counts fs.new }) (unless_lack (error_of result)) }
    ensures plan { F.told fs.old ≡ true → CanBePlanned (F.trail fs.old).present (entries_of job.now old.now new.now) → IfOk result (λ prepared. IsPlanOf (F.trail fs.old).present (entries_of job.now old.now new.now) prepared.plan) }
    ensures paths { IfOk result (λ prepared. AreControlPaths job.now prepared.control) }
    ensures places { IfOk result (λ prepared. AreEndPlaces job.now old.now prepared.places) }
    ensures unrefused { DecidedBy None result }
{
    let plan = make_plan(alloc, fs, job, old, new)?;
    with_plan(alloc, job, old, plan)
}

/// Carries the status of the old cluster's transactions into the new one, and its counters, and then builds what the later
/// phases need.
pub(crate) fn carry_and_prepare<F: Fs>(
    alloc: Global,
    fs: &mut F,
    restored: &Restored,
) -> Result<Prepared, FsError>
    requires { F.told fs.old ≡ true → restored.now.new_catalog ≡ restored.now.passed.old_catalog }
    ensures told { F.told fs.new ≡ F.told fs.old }
    ensures firm { F.firm fs.new ≡ F.firm fs.old }
    ensures calls { F.told fs.old ≡ true → CarriesThenReads restored.now.job (F.trail fs.old) (F.trail fs.new) }
    ensures carried { F.told fs.old ≡ true → restored.now.job.old ≢ restored.now.job.new → IsHeadOf (F.trail fs.old).present (control_at restored.now.job.new) restored.now.passed.new_record → OnOk result (HasTransactions restored.now.job restored.now.passed.old_control.counters (F.trail fs.old).present (F.trail fs.new).present) }
    ensures plan { F.told fs.old ≡ true → CanBePlanned (F.trail fs.new).present (entries_of restored.now.job restored.now.passed.old_catalog restored.now.passed.old_catalog) → IfOk result (λ prepared. IsPlanOf (F.trail fs.new).present (entries_of restored.now.job restored.now.passed.old_catalog restored.now.passed.old_catalog) prepared.plan) }
    ensures paths { IfOk result (λ prepared. AreControlPaths restored.now.job prepared.control) }
    ensures places { IfOk result (λ prepared. AreEndPlaces restored.now.job restored.now.passed.old_catalog prepared.places) }
    ensures unrefused { F.told fs.old ≡ true → restored.now.job.old ≢ restored.now.job.new → HoldsStatus (F.trail fs.old).present.names restored.now.job.old → HoldsStatus (F.trail fs.old).present.names restored.now.job.new → IsHeadOf (F.trail fs.old).present (control_at restored.now.job.new) restored.now.passed.new_record → DecidedBy None result }
    ensures cause { HasCause (F.firm fs.old) (F.counts fs.old) (F.counts fs.new) (unless_lack (error_of result)) }
{
    carry_transactions(alloc, fs, &restored.job, &restored.passed)?;
    prepare(
        alloc,
        fs,
        &restored.job,
        &restored.passed.old_catalog,
        &restored.new_catalog,
    )
}

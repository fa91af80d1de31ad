ghost use Rattle.std.specs.Prelude.{◌≡◌, true, IfOk, IfErr};
ghost use Rattle.fs_model.specs.Crash.{Settled};
ghost use Rattle.fs_model.specs.Trail.{Trail, Since};
ghost use Rattle.upgraded.specs.Upgraded.{ReadsCatalog};
ghost use Rattle.phase_facts.specs.Held.{IsSafeSince};
ghost use Rattle.phase_frames.specs.Framed.{IsFramed};
ghost use Rattle.phases.specs.Begun.{IsOpened};
ghost use Rattle.phases.specs.Faults.{fault_in, IsInCluster, IsNoChange, HasPhaseCause};
ghost use Rattle.phases.specs.Facts.{IsChecked, IsRestored, LinksKnownSince};

use crate::faults::restore_fault;
use crate::{PhaseError, Restored};
use catalog_server::Server;
use compat_checks::Passed;
use control_file::Job;
use fs_model::Fs;
use phase_names::PhaseName;
use restore::carry_schema;
use std::alloc::Global;

/// Both clusters passed the checks.
#[derive(Drop)]
pub struct Checked {
    pub(crate) job: Job,
    pub(crate) passed: Passed,
}

impl Checked {
    /// Opens the upgrade of two clusters that passed the checks. Takes no memory.
    pub fn new(passed: Passed, job: Job) -> Checked
        ensures job { result.job ≡ job }
        ensures passed { result.passed ≡ passed }
        ensures fact { (read : ReadsCatalog) (opening : Trail) → IsOpened read job passed.old_catalog passed.old_control passed.new_record opening.present → IsChecked read result opening opening }
    {
        Checked { job, passed }
    }

    /// Carries the schema of the old cluster into the new one.
    pub fn restore<F: Fs, S: Server<F>>(
        self,
        alloc: Global,
        server: &mut S,
        fs: &mut F,
    ) -> Result<Restored, PhaseError>
        requires fact { F.told fs.old ≡ true → (opening : Trail) × IsChecked S.catalog_of self opening (F.trail fs.old) }
        ensures told { F.told fs.new ≡ F.told fs.old }
        ensures firm { F.firm fs.new ≡ F.firm fs.old }
        ensures job { IfOk result (λ next. next.job ≡ self.job) }
        ensures passed { IfOk result (λ next. next.passed ≡ self.passed) }
        ensures fact { F.told fs.old ≡ true → (opening : Trail) → IsChecked S.catalog_of self opening (F.trail fs.old) → IfOk result (λ next. IsRestored S.catalog_of next opening (F.trail fs.new)) }
        ensures safe { F.told fs.old ≡ true → (opening : Trail) → IsChecked S.catalog_of self opening (F.trail fs.old) → IsSafeSince self.job opening (F.trail fs.new) }
        ensures links { F.told fs.old ≡ true → (opening : Trail) → IsChecked S.catalog_of self opening (F.trail fs.old) → Settled opening.present → LinksKnownSince self.job opening (F.trail fs.new) }
        ensures frame { F.told fs.old ≡ true → (opening : Trail) → IsChecked S.catalog_of self opening (F.trail fs.old) → IsFramed self.job opening.present (F.trail fs.old).present → Since (IsFramed self.job opening.present) (F.trail fs.old) (F.trail fs.new) }
        ensures unrefused { F.told fs.old ≡ true → (opening : Trail) → IsChecked S.catalog_of self opening (F.trail fs.old) → IfErr result (λ error. IsNoChange error.kind) }
        ensures phase { IfErr result (λ error. error.at ≡ PhaseName.Restore) }
        ensures fault { IfErr result (λ error. IsInCluster self.job error.kind) }
        ensures cause { HasPhaseCause (F.firm fs.old) (F.counts fs.old) (F.counts fs.new) (S.counts server.old) (S.counts server.new) (fault_in result) }
    {
        let carried = carry_schema(alloc, server, fs, &self.job, &self.passed.old_catalog);
        // It says that the state is well-formed.
        let _ = fs.moment();
        match carried {
            Ok(new_catalog) => Ok(Restored {
                job: self.job,
                passed: self.passed,
                new_catalog,
            }),
            Err(error) => Err(PhaseError {
                kind: restore_fault(error, self.job),
                at: PhaseName::Restore,
            }),
        }
    }
}

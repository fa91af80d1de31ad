ghost use Rattle.std.specs.Prelude.{◌≡◌, true, IfOk, IfErr};
ghost use Rattle.fs_model.specs.Crash.{Settled};
ghost use Rattle.fs_model.specs.Trail.{Trail, Since, HasCause, unless_lack};
ghost use Rattle.upgraded.specs.Upgraded.{ReadsCatalog};
ghost use Rattle.phase_facts.specs.Held.{IsSafeSince};
ghost use Rattle.phase_frames.specs.Framed.{IsFramed};
ghost use Rattle.phases.specs.Faults.{fault_in, files_error, IsOfFiles, IsNoChange};
ghost use Rattle.phases.specs.Facts.{IsRestored, IsStatused, LinksKnownSince};

use crate::faults::files_fault;
use crate::preparing::carry_and_prepare;
use crate::{PhaseError, Statused};
use catalog::Catalog;
use compat_checks::Passed;
use control_file::Job;
use fs_model::Fs;
use phase_names::PhaseName;
use std::alloc::Global;

/// The new cluster has the schema of the old one.
#[derive(Drop)]
pub struct Restored {
    pub(crate) job: Job,
    pub(crate) passed: Passed,
    pub(crate) new_catalog: Catalog,
}

impl Restored {
    /// Carries the status of transactions and the counters into the new cluster, and builds all that the later phases
    /// need, so that they take no memory until all relation files are carried.
    pub fn status<F: Fs>(self, alloc: Global, fs: &mut F) -> Result<Statused, PhaseError>
        requires fact { F.told fs.old ≡ true → (read : ReadsCatalog) × (opening : Trail) × IsRestored read self opening (F.trail fs.old) }
        ensures told { F.told fs.new ≡ F.told fs.old }
        ensures firm { F.firm fs.new ≡ F.firm fs.old }
        ensures job { IfOk result (λ next. next.job ≡ self.job) }
        ensures catalog { IfOk result (λ next. next.catalog ≡ self.passed.old_catalog) }
        ensures fact { F.told fs.old ≡ true → (read : ReadsCatalog) (opening : Trail) → IsRestored read self opening (F.trail fs.old) → IfOk result (λ next. IsStatused read next opening (F.trail fs.new)) }
        ensures safe { F.told fs.old ≡ true → (read : ReadsCatalog) (opening : Trail) → IsRestored read self opening (F.trail fs.old) → IsSafeSince self.job opening (F.trail fs.new) }
        ensures links { F.told fs.old ≡ true → (read : ReadsCatalog) (opening : Trail) → IsRestored read self opening (F.trail fs.old) → Settled opening.present → LinksKnownSince self.job opening (F.trail fs.new) }
        ensures frame { F.told fs.old ≡ true → (read : ReadsCatalog) (opening : Trail) → IsRestored read self opening (F.trail fs.old) → IsFramed self.job opening.present (F.trail fs.old).present → Since (IsFramed self.job opening.present) (F.trail fs.old) (F.trail fs.new) }
        ensures unrefused { F.told fs.old ≡ true → (read : ReadsCatalog) (opening : Trail) → IsRestored read self opening (F.trail fs.old) → IfErr result (λ error. IsNoChange error.kind) }
        ensures phase { IfErr result (λ error. error.at ≡ PhaseName.Status) }
        ensures fault { IfErr result (λ error. IsOfFiles self.job.new error.kind) }
        ensures cause { HasCause (F.firm fs.old) (F.counts fs.old) (F.counts fs.new) (unless_lack (files_error (fault_in result))) }
    {
        let prepared = carry_and_prepare(alloc, fs, &self);
        // It says that the state is well-formed.
        let _ = fs.moment();
        match prepared {
            Ok(prepared) => Ok(Statused {
                job: self.job,
                catalog: self.passed.old_catalog,
                prepared,
            }),
            Err(error) => Err(PhaseError {
                kind: files_fault(error, self.job.new),
                at: PhaseName::Status,
            }),
        }
    }
}

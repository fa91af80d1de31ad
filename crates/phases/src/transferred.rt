ghost use Rattle.std.specs.Prelude.{◌≡◌, ◌⊎◌, true, None, IfOk, IfErr};
ghost use Rattle.fs_model.specs.Trail.{Trail, Since, EachCrash, HasCause, OthersStay, unless_lack};
ghost use Rattle.std.specs.FinMap.{get};
ghost use Rattle.fs_model.specs.Crash.{Settled};
ghost use Rattle.phase_facts.specs.Places.{mark_at};
ghost use Rattle.upgraded.specs.Upgraded.{ReadsCatalog, Upgraded};
ghost use Rattle.phase_facts.specs.Finishing.{IsMarkedSince};
ghost use Rattle.phase_frames.specs.Framed.{IsFramed};
ghost use Rattle.phases.specs.Faults.{fault_in, files_error, IsOfFiles, IsNoChange};
ghost use Rattle.phases.specs.Facts.{IsTransferred, IsFinished, LinksKnownSince};

use crate::faults::files_fault;
use crate::{Finished, PhaseError};
use catalog::Catalog;
use control_file::Job;
use fs_model::Fs;
use last_sync::{Places, finish_cluster};
use phase_names::PhaseName;
use std::alloc::Global;
use transfer_plan::Plan;

/// The new cluster has the relation files of the old one.
#[derive(Drop)]
pub struct Transferred {
    pub(crate) job: Job,
    pub(crate) catalog: Catalog,
    pub(crate) plan: Plan,
    pub(crate) places: Places,
}

impl Transferred {
    /// Puts all on the disk, and then marks the new cluster.
    pub fn finish<F: Fs>(self, alloc: Global, fs: &mut F) -> Result<Finished, PhaseError>
        requires fact { F.told fs.old ≡ true → (read : ReadsCatalog) × (opening : Trail) × IsTransferred read self opening (F.trail fs.old) }
        ensures told { F.told fs.new ≡ F.told fs.old }
        ensures firm { F.firm fs.new ≡ F.firm fs.old }
        ensures job { IfOk result (λ next. next.job ≡ self.job) }
        ensures catalog { IfOk result (λ next. next.catalog ≡ self.catalog) }
        ensures fact { F.told fs.old ≡ true → (read : ReadsCatalog) (opening : Trail) → IsTransferred read self opening (F.trail fs.old) → IfOk result (λ next. IsFinished read next opening (F.trail fs.new)) }
        ensures marked { F.told fs.old ≡ true → (read : ReadsCatalog) (opening : Trail) → IsTransferred read self opening (F.trail fs.old) → IsMarkedSince self.job opening (F.trail fs.old) (F.trail fs.new) }
        ensures links { F.told fs.old ≡ true → (read : ReadsCatalog) (opening : Trail) → IsTransferred read self opening (F.trail fs.old) → Settled opening.present → LinksKnownSince self.job opening (F.trail fs.new) }
        ensures frame { F.told fs.old ≡ true → (read : ReadsCatalog) (opening : Trail) → IsTransferred read self opening (F.trail fs.old) → IsFramed self.job opening.present (F.trail fs.old).present → Since (IsFramed self.job opening.present) (F.trail fs.old) (F.trail fs.new) }
        // Each crash that shows the mark shows an upgraded cluster.
        ensures crashes { F.told fs.old ≡ true → (read : ReadsCatalog) (opening : Trail) → IsTransferred read self opening (F.trail fs.old) → Settled opening.present → EachCrash (λ x. (get x.names (mark_at self.job.new) ≡ None) ⊎ Upgraded read self.job self.catalog opening.present x) opening (F.trail fs.new) }
        ensures unrefused { F.told fs.old ≡ true → (read : ReadsCatalog) (opening : Trail) → IsTransferred read self opening (F.trail fs.old) → IfErr result (λ error. IsNoChange error.kind) }
        ensures phase { IfErr result (λ error. error.at ≡ PhaseName.Finish) }
        ensures fault { IfErr result (λ error. IsOfFiles self.job.new error.kind) }
        ensures cause { HasCause (F.firm fs.old) (F.counts fs.old) (F.counts fs.new) (unless_lack (files_error (fault_in result))) }
        ensures others { OthersStay (F.counts fs.old) (F.counts fs.new) (files_error (fault_in result)) }
    {
        // It says that the state is well-formed.
        let _ = fs.moment();
        match finish_cluster(alloc, fs, &self.places) {
            Ok(()) => Ok(Finished {
                job: self.job,
                catalog: self.catalog,
                plan: self.plan,
            }),
            Err(error) => Err(PhaseError {
                kind: files_fault(error, self.job.new),
                at: PhaseName::Finish,
            }),
        }
    }
}

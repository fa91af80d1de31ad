ghost use Rattle.std.specs.Prelude.{◌≡◌, true, IfOk, IfErr};
ghost use Rattle.fs_model.specs.Crash.{Settled};
ghost use Rattle.fs_model.specs.Trail.{Trail, Since, HasCause, OthersStay};
ghost use Rattle.upgraded.specs.Upgraded.{ReadsCatalog};
ghost use Rattle.phase_facts.specs.Held.{IsSafeSince};
ghost use Rattle.phase_frames.specs.Framed.{IsFramed};
ghost use Rattle.phases.specs.Faults.{fault_in, files_error, IsOfFiles, IsNoChange};
ghost use Rattle.phases.specs.Facts.{IsDisabled, IsTransferred, LinksKnownSince};

use crate::faults::files_fault;
use crate::{PhaseError, Transferred};
use catalog::Catalog;
use control_file::Job;
use disable_old::LinkPermit;
use fs_model::Fs;
use last_sync::Places;
use link_transfer::link_all;
use phase_names::PhaseName;
use transfer_plan::Plan;

/// The old cluster is disabled, so that the new one may share its files.
#[derive(Drop)]
pub struct Disabled {
    pub(crate) job: Job,
    pub(crate) catalog: Catalog,
    pub(crate) plan: Plan,
    pub(crate) places: Places,
    pub(crate) permit: LinkPermit,
}

impl Disabled {
    /// Links the relation files. Takes no memory.
    pub fn link<F: Fs>(self, fs: &mut F) -> Result<Transferred, PhaseError>
        requires fact { F.told fs.old ≡ true → (read : ReadsCatalog) × (opening : Trail) × IsDisabled read self opening (F.trail fs.old) }
        ensures told { F.told fs.new ≡ F.told fs.old }
        ensures firm { F.firm fs.new ≡ F.firm fs.old }
        ensures job { IfOk result (λ next. next.job ≡ self.job) }
        ensures catalog { IfOk result (λ next. next.catalog ≡ self.catalog) }
        ensures fact { F.told fs.old ≡ true → (read : ReadsCatalog) (opening : Trail) → IsDisabled read self opening (F.trail fs.old) → IfOk result (λ next. IsTransferred read next opening (F.trail fs.new)) }
        ensures safe { F.told fs.old ≡ true → (read : ReadsCatalog) (opening : Trail) → IsDisabled read self opening (F.trail fs.old) → IsSafeSince self.job opening (F.trail fs.new) }
        ensures links { F.told fs.old ≡ true → (read : ReadsCatalog) (opening : Trail) → IsDisabled read self opening (F.trail fs.old) → Settled opening.present → LinksKnownSince self.job opening (F.trail fs.new) }
        ensures frame { F.told fs.old ≡ true → (read : ReadsCatalog) (opening : Trail) → IsDisabled read self opening (F.trail fs.old) → IsFramed self.job opening.present (F.trail fs.old).present → Since (IsFramed self.job opening.present) (F.trail fs.old) (F.trail fs.new) }
        ensures unrefused { F.told fs.old ≡ true → (read : ReadsCatalog) (opening : Trail) → IsDisabled read self opening (F.trail fs.old) → IfErr result (λ error. IsNoChange error.kind) }
        ensures phase { IfErr result (λ error. error.at ≡ PhaseName.Transfer) }
        ensures fault { IfErr result (λ error. IsOfFiles self.job.new error.kind) }
        ensures cause { HasCause (F.firm fs.old) (F.counts fs.old) (F.counts fs.new) (files_error (fault_in result)) }
        ensures others { OthersStay (F.counts fs.old) (F.counts fs.new) (files_error (fault_in result)) }
    {
        match link_all(fs, &self.plan, &self.permit) {
            Ok(()) => Ok(Transferred {
                job: self.job,
                catalog: self.catalog,
                plan: self.plan,
                places: self.places,
            }),
            Err(error) => Err(PhaseError {
                kind: files_fault(error, self.job.new),
                at: PhaseName::Transfer,
            }),
        }
    }
}

ghost use Rattle.std.specs.Prelude.{◌≡◌, true, IfOk, IfErr};
ghost use Rattle.fs_model.specs.Crash.{Settled};
ghost use Rattle.fs_model.specs.Trail.{Trail, Since, HasCause, OthersStay};
ghost use Rattle.upgraded.specs.Upgraded.{ReadsCatalog};
ghost use Rattle.phase_facts.specs.Held.{IsSafeSince};
ghost use Rattle.phase_frames.specs.Framed.{IsFramed};
ghost use Rattle.phases.specs.Faults.{fault_in, files_error, IsOfFiles, IsNoChange};
ghost use Rattle.phases.specs.Facts.{IsStatused, IsDisabled, IsTransferred, LinksKnownSince};

use crate::faults::files_fault;
use crate::prepared::Prepared;
use crate::{Disabled, PhaseError, Transferred};
use catalog::Catalog;
use control_file::{Job, Mode};
use copy_transfer::copy_all;
use disable_old::disable;
use fs_model::Fs;
use phase_names::PhaseName;

/// The new cluster knows how each transaction ended, and all is ready for the transfer.
#[derive(Drop)]
pub struct Statused {
    pub(crate) job: Job,
    pub(crate) catalog: Catalog,
    pub(crate) prepared: Prepared,
}

impl Statused {
    /// Copies the relation files. Takes no memory.
    pub fn copy<F: Fs>(self, fs: &mut F) -> Result<Transferred, PhaseError>
        requires mode { self.job.mode ≡ Mode.Copy }
        requires fact { F.told fs.old ≡ true → (read : ReadsCatalog) × (opening : Trail) × IsStatused read self opening (F.trail fs.old) }
        ensures told { F.told fs.new ≡ F.told fs.old }
        ensures firm { F.firm fs.new ≡ F.firm fs.old }
        ensures job { IfOk result (λ next. next.job ≡ self.job) }
        ensures catalog { IfOk result (λ next. next.catalog ≡ self.catalog) }
        ensures fact { F.told fs.old ≡ true → (read : ReadsCatalog) (opening : Trail) → IsStatused read self opening (F.trail fs.old) → IfOk result (λ next. IsTransferred read next opening (F.trail fs.new)) }
        ensures safe { F.told fs.old ≡ true → (read : ReadsCatalog) (opening : Trail) → IsStatused read self opening (F.trail fs.old) → IsSafeSince self.job opening (F.trail fs.new) }
        ensures links { F.told fs.old ≡ true → (read : ReadsCatalog) (opening : Trail) → IsStatused read self opening (F.trail fs.old) → Settled opening.present → LinksKnownSince self.job opening (F.trail fs.new) }
        ensures frame { F.told fs.old ≡ true → (read : ReadsCatalog) (opening : Trail) → IsStatused read self opening (F.trail fs.old) → IsFramed self.job opening.present (F.trail fs.old).present → Since (IsFramed self.job opening.present) (F.trail fs.old) (F.trail fs.new) }
        ensures unrefused { F.told fs.old ≡ true → (read : ReadsCatalog) (opening : Trail) → IsStatused read self opening (F.trail fs.old) → IfErr result (λ error. IsNoChange error.kind) }
        ensures phase { IfErr result (λ error. error.at ≡ PhaseName.Transfer) }
        ensures fault { IfErr result (λ error. IsOfFiles self.job.new error.kind) }
        ensures cause { HasCause (F.firm fs.old) (F.counts fs.old) (F.counts fs.new) (files_error (fault_in result)) }
        ensures others { OthersStay (F.counts fs.old) (F.counts fs.new) (files_error (fault_in result)) }
    {
        let Statused {
            job,
            catalog,
            prepared,
        } = self;
        let Prepared {
            plan,
            control: _,
            places,
            mut buffer,
        } = prepared;
        match copy_all(fs, &plan, &mut buffer) {
            Ok(()) => Ok(Transferred {
                job,
                catalog,
                plan,
                places,
            }),
            Err(error) => Err(PhaseError {
                kind: files_fault(error, job.new),
                at: PhaseName::Transfer,
            }),
        }
    }

    /// Disables the old cluster. Takes no memory.
    pub fn disable<F: Fs>(self, fs: &mut F) -> Result<Disabled, PhaseError>
        requires mode { self.job.mode ≡ Mode.Link }
        requires fact { F.told fs.old ≡ true → (read : ReadsCatalog) × (opening : Trail) × IsStatused read self opening (F.trail fs.old) }
        ensures told { F.told fs.new ≡ F.told fs.old }
        ensures firm { F.firm fs.new ≡ F.firm fs.old }
        ensures job { IfOk result (λ next. next.job ≡ self.job) }
        ensures catalog { IfOk result (λ next. next.catalog ≡ self.catalog) }
        ensures fact { F.told fs.old ≡ true → (read : ReadsCatalog) (opening : Trail) → IsStatused read self opening (F.trail fs.old) → IfOk result (λ next. IsDisabled read next opening (F.trail fs.new)) }
        ensures safe { F.told fs.old ≡ true → (read : ReadsCatalog) (opening : Trail) → IsStatused read self opening (F.trail fs.old) → IsSafeSince self.job opening (F.trail fs.new) }
        ensures links { F.told fs.old ≡ true → (read : ReadsCatalog) (opening : Trail) → IsStatused read self opening (F.trail fs.old) → Settled opening.present → LinksKnownSince self.job opening (F.trail fs.new) }
        ensures frame { F.told fs.old ≡ true → (read : ReadsCatalog) (opening : Trail) → IsStatused read self opening (F.trail fs.old) → IsFramed self.job opening.present (F.trail fs.old).present → Since (IsFramed self.job opening.present) (F.trail fs.old) (F.trail fs.new) }
        ensures unrefused { F.told fs.old ≡ true → IfErr result (λ error. IsNoChange error.kind) }
        ensures phase { IfErr result (λ error. error.at ≡ PhaseName.Disable) }
        ensures fault { IfErr result (λ error. IsOfFiles self.job.old error.kind) }
        ensures cause { HasCause (F.firm fs.old) (F.counts fs.old) (F.counts fs.new) (files_error (fault_in result)) }
        ensures others { OthersStay (F.counts fs.old) (F.counts fs.new) (files_error (fault_in result)) }
    {
        let Statused {
            job,
            catalog,
            prepared,
        } = self;
        let Prepared {
            plan,
            control,
            places,
            buffer: _,
        } = prepared;
        // It says that the state is well-formed.
        let _ = fs.moment();
        match disable(fs, control) {
            Ok(permit) => Ok(Disabled {
                job,
                catalog,
                plan,
                places,
                permit,
            }),
            Err(error) => Err(PhaseError {
                kind: files_fault(error, job.old),
                at: PhaseName::Disable,
            }),
        }
    }
}

// The laws of what a transfer needs. Nothing is computed: each contract is a fact about definitions.
ghost use Rattle.std.specs.Prelude.{◌≡◌, List, Option};
ghost use Rattle.std.specs.FinMap.{get};
ghost use Rattle.fs_model.specs.declared.effect.Effect.{Effect};
ghost use Rattle.fs_model.specs.declared.error.FsError.{FsError};
ghost use Rattle.fs_model.specs.Names.{Path, IsUnder};
ghost use Rattle.fs_model.specs.State.{Names, FsState};
ghost use Rattle.fs_model.specs.Effects.{apply};
ghost use Rattle.fs_model.specs.Calls.{Call, MayDo};
ghost use Rattle.fs_model.specs.WellFormed.{IsTree};
ghost use Rattle.fs_model.specs.Trail.{Trail, Goes, Since};
ghost use Rattle.crash_safety.specs.Synced.{IsOneOf};
ghost use Rattle.transfer_plan.specs.declared.plan.PlanItem.{PlanItem};
ghost use Rattle.transfer_plan.specs.Carriable.{CanBeCarried, HaveOneDevice, names_of, targets, SparesPlan};
ghost use Rattle.transfer_plan.specs.Changed.{ChangesOnlyAt, TransfersTo};

/// A plan that can be carried out can be still where the names that it speaks of are as before, after a call that makes
/// and removes none of them, whatever it answers, and in each state that such calls lead through. So it is with the
/// devices of its directories.
pub fn plans_stay()
    ensures names { (items : List PlanItem) (a b : Names) → ((name : Path) → IsOneOf (names_of items) name → get b name ≡ get a name) → CanBeCarried a items → CanBeCarried b items }
    ensures devices { (items : List PlanItem) (a b : FsState) → ((name : Path) → IsOneOf (names_of items) name → get b.devices name ≡ get a.devices name) → HaveOneDevice a items → HaveOneDevice b items }
    ensures calls { (items : List PlanItem) (s : FsState) (call : Call) (answer : Option FsError) (effect : Effect) → SparesPlan items s call → MayDo s call answer effect → CanBeCarried s.names items → CanBeCarried (apply s effect).names items }
    ensures device_calls { (items : List PlanItem) (s : FsState) (call : Call) (answer : Option FsError) (effect : Effect) → SparesPlan items s call → MayDo s call answer effect → HaveOneDevice s items → HaveOneDevice (apply s effect) items }
    ensures runs { (items : List PlanItem) (a b : Trail) → Goes (SparesPlan items) a b → CanBeCarried a.present.names items → Since (λ s. CanBeCarried s.names items) a b }
    ensures device_runs { (items : List PlanItem) (a b : Trail) → Goes (SparesPlan items) a b → HaveOneDevice a.present items → Since (λ s. HaveOneDevice s items) a b }
{}

/// Of a plan that can be carried out no new name lies below another.
pub fn targets_are_apart()
    ensures { (items : List PlanItem) (names : Names) → IsTree names → CanBeCarried names items → (path other : Path) → IsOneOf (targets items) path → IsOneOf (targets items) other → IsUnder path other → other ≡ path }
{}

/// A run of a transfer's calls leaves all but the new names, in every state on the way.
pub fn targets_alone_change()
    ensures { (paths : List Path) (a b : Trail) → Goes (TransfersTo paths a.present) a b → Since (ChangesOnlyAt paths a.present) a b }
{}

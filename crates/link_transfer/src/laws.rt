// The laws of linking. Nothing is computed: each contract is a fact about definitions.
ghost use Rattle.std.specs.Prelude.{◌≡◌, List};
ghost use Rattle.std.specs.FinMap.{get};
ghost use Rattle.fs_model.specs.Names.{Path};
ghost use Rattle.fs_model.specs.State.{FsState};
ghost use Rattle.crash_safety.specs.Frame.{IsInside, IsOutside};
ghost use Rattle.crash_safety.specs.Synced.{IsOneOf};
ghost use Rattle.transfer_plan.specs.declared.plan.PlanItem.{PlanItem};
ghost use Rattle.transfer_plan.specs.Carriable.{targets};
ghost use Rattle.transfer_plan.specs.Changed.{ChangesOnlyAt};
ghost use Rattle.link_transfer.specs.LinkedFiles.{ShareOnly, IsLinked};

/// Where no file had a name in both clusters, after linking only the plan's new names have files of the old cluster: each
/// has the one that stands at its old name still.
pub fn only_carried_are_shared()
    ensures others { (items : List PlanItem) (old new : List Path) (s t : FsState) → ((path : Path) → IsInside old path → IsOutside new path) → ((path : Path) → IsOneOf (targets items) path → IsInside new path) → ShareOnly old new (λ path. ⊥) s.names → ChangesOnlyAt (targets items) s t → ShareOnly old new (IsOneOf (targets items)) t.names }
    ensures carried { (items : List PlanItem) (old new : List Path) (s t : FsState) → ((path : Path) → IsInside old path → IsOutside new path) → ((path : Path) → IsOneOf (targets items) path → IsInside new path) → (item : PlanItem) → IsInside old item.from → ChangesOnlyAt (targets items) s t → IsLinked s t item → get t.names item.to ≡ get t.names item.from }
{}

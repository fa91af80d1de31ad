// The laws of carrying out a plan. Nothing is computed: each contract is a fact about definitions.
ghost use Rattle.std.specs.Prelude.{List};
ghost use Rattle.std.specs.List.{AllByRecursion};
ghost use Rattle.fs_model.specs.State.{FsState};
ghost use Rattle.fs_model.specs.WellFormed.{WellFormed};
ghost use Rattle.control_file.specs.declared.job.Job.{Job};
ghost use Rattle.catalog.specs.Cluster.{Cluster};
ghost use Rattle.catalog.specs.Valid.{IsValid};
ghost use Rattle.transfer_plan.specs.declared.plan.PlanItem.{PlanItem};
ghost use Rattle.transfer_plan.specs.Carriable.{targets};
ghost use Rattle.transfer_plan.specs.Changed.{ChangesOnlyAt};
ghost use Rattle.copy_transfer.specs.CopiedFiles.{AreCopied};
ghost use Rattle.link_transfer.specs.LinkedFiles.{AreLinked, ChangesNamesAt};
ghost use Rattle.relation_map.specs.Pairs.{entries_of};
ghost use Rattle.plan_build.specs.Planned.{carriages};
ghost use Rattle.plan_build.specs.Plannable.{IsPlanOf};
ghost use Rattle.plan_build.specs.Carrying.{HasOnlyCarried, HasItems, HasRelations};

/// Where all files of the plan were copied, and nothing else was changed, the new cluster has the carried files of each
/// relation.
pub fn copies_carry()
    ensures items { (s t : FsState) (items : List PlanItem) → WellFormed s → AreCopied s t items → ChangesOnlyAt (targets items) s t → HasItems s t items }
    ensures relations { (job : Job) (catalog : Cluster) (s t : FsState) (items : List PlanItem) → IsValid catalog → WellFormed s → IsPlanOf s (entries_of job catalog catalog) items → AllByRecursion (HasOnlyCarried s) (carriages (entries_of job catalog catalog)) → AreCopied s t items → ChangesOnlyAt (targets items) s t → HasRelations job catalog s t }
{}

/// So it is where they all were linked.
pub fn links_carry()
    ensures items { (s t : FsState) (items : List PlanItem) → WellFormed s → AreLinked s t items → ChangesNamesAt (targets items) s t → HasItems s t items }
    ensures relations { (job : Job) (catalog : Cluster) (s t : FsState) (items : List PlanItem) → IsValid catalog → WellFormed s → IsPlanOf s (entries_of job catalog catalog) items → AllByRecursion (HasOnlyCarried s) (carriages (entries_of job catalog catalog)) → AreLinked s t items → ChangesNamesAt (targets items) s t → HasRelations job catalog s t }
{}

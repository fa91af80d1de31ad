// Where the files of a plan stand.
ghost use Rattle.std.specs.Prelude.{◌≡◌, ℕ, List};
ghost use Rattle.std.specs.List.{AllByRecursion};
ghost use Rattle.fs_model.specs.Names.{Path};
ghost use Rattle.fs_model.specs.State.{FsState};
ghost use Rattle.fs_model.specs.Trail.{Trail, Goes};
ghost use Rattle.crash_safety.specs.Places.{control_at, disabled_at};
ghost use Rattle.disable_old.specs.Renamed.{Disables};
ghost use Rattle.transfer_plan.specs.Carriable.{CanBeCarried, HaveOneDevice};
ghost use Rattle.control_file.specs.declared.job.Job.{Job};
ghost use Rattle.catalog.specs.Cluster.{Cluster};
ghost use Rattle.transfer_plan.specs.declared.plan.PlanItem.{PlanItem};
ghost use Rattle.phase_facts.specs.CanUpgrade.{CanBegin, CanUpgrade};
ghost use Rattle.phase_facts.specs.Plans.{IsRelationItem, IsPlanIn};

/// A plan of segments of a catalog's relations is in the directories that both clusters have for these.
pub fn plans_stand_in_places()
    ensures { (job : Job) (catalog : Cluster) (head : List ℕ) (s : FsState) → CanUpgrade job catalog head s → (items : List PlanItem) → AllByRecursion (IsRelationItem job catalog) items → IsPlanIn job s items }
{}

/// Disabling the old cluster leaves what a plan in these directories needs.
pub fn disabling_spares_plans()
    ensures carried { (job : Job) (opening a b : Trail) (items : List PlanItem) → CanBegin job opening.present → IsPlanIn job opening.present items → (dir : Path) → Goes (Disables (control_at job.old) (disabled_at job.old) dir) a b → CanBeCarried a.present.names items → CanBeCarried b.present.names items }
    ensures devices { (job : Job) (opening a b : Trail) (items : List PlanItem) → CanBegin job opening.present → IsPlanIn job opening.present items → (dir : Path) → Goes (Disables (control_at job.old) (disabled_at job.old) dir) a b → HaveOneDevice a.present items → HaveOneDevice b.present items }
{}

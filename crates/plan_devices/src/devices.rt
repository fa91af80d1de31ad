// The devices that directories keep, and those of a plan.
ghost use Rattle.std.specs.Prelude.{◌≡◌, ℕ, true, List};
ghost use Rattle.std.specs.List.{AllByRecursion};
ghost use Rattle.fs_model.specs.State.{FsState};
ghost use Rattle.fs_model.specs.WellFormed.{WellFormed};
ghost use Rattle.fs_model.specs.Trail.{Trail, Goes, Since};
ghost use Rattle.control_file.specs.declared.job.Job.{Job};
ghost use Rattle.catalog.specs.Cluster.{Cluster};
ghost use Rattle.transfer_plan.specs.declared.plan.PlanItem.{PlanItem};
ghost use Rattle.transfer_plan.specs.Carriable.{CanBeCarried, HaveOneDevice};
ghost use Rattle.phase_facts.specs.Places.{disables};
ghost use Rattle.phase_facts.specs.CanUpgrade.{CanUpgrade};
ghost use Rattle.phase_facts.specs.Held.{KeepsDirectories};
ghost use Rattle.phase_facts.specs.Plans.{IsRelationItem};
ghost use Rattle.plan_devices.specs.Kept.{KeepsDevices};

/// A run that removes no directory gives each that it makes the device of the directory that it is made in, and so that of
/// the nearest one that stood at the start.
pub fn runs_keep_devices()
    ensures begun { (a b : Trail) → WellFormed a.present → Goes KeepsDirectories a b → Since (KeepsDevices a.present) a b }
    ensures further { (start : FsState) (a b : Trail) → WellFormed start → KeepsDevices start a.present → Goes KeepsDirectories a b → Since (KeepsDevices start) a b }
{}

/// Where the checks of an upgrade that links have passed, which found one device for the directories of each relation, those
/// of each item of a plan of relations have one too, once the plan can be carried out. Of the new directories it is no
/// matter which stood when the checks were made.
pub fn plans_have_one_device()
    ensures { (job : Job) (catalog : Cluster) (head : List ℕ) (start s : FsState) (items : List PlanItem) → CanUpgrade job catalog head start → disables job.mode ≡ true → KeepsDevices start s → AllByRecursion (IsRelationItem job catalog) items → CanBeCarried s.names items → HaveOneDevice s items }
{}

// What follows where the checks find nothing: an upgrade may begin.
ghost use Rattle.std.specs.Prelude.{ℕ, List};
ghost use Rattle.fs_model.specs.State.{FsState};
ghost use Rattle.fs_model.specs.WellFormed.{WellFormed};
ghost use Rattle.control_file.specs.declared.job.Job.{Job};
ghost use Rattle.catalog.specs.Cluster.{Cluster};
ghost use Rattle.catalog.specs.Valid.{IsValid};
ghost use Rattle.crash_safety.specs.Places.{control_at};
ghost use Rattle.status_transfer.specs.Counted.{IsHeadOf};
ghost use Rattle.phase_facts.specs.CanUpgrade.{CanBegin, CanUpgrade};
ghost use Rattle.passed_checks.specs.Passing.{PassesFiles, PassesRelations};

/// Where they find nothing, the steps of an upgrade have what they need.
pub fn passed_can_upgrade()
    ensures begins { (s : FsState) (job : Job) (catalog : Cluster) → WellFormed s → PassesFiles s job catalog → CanBegin job s }
    ensures all { (s : FsState) (job : Job) (catalog : Cluster) → WellFormed s → PassesFiles s job catalog → PassesRelations s job catalog → IsValid catalog → (head : List ℕ) → IsHeadOf s (control_at job.new) head → CanUpgrade job catalog head s }
{}

// What the plan of a catalog has that both clusters have.
ghost use Rattle.std.specs.Prelude.{◌≢◌, List};
ghost use Rattle.fs_model.specs.State.{FsState};
ghost use Rattle.fs_model.specs.WellFormed.{WellFormed};
ghost use Rattle.crash_safety.specs.Places.{control_at};
ghost use Rattle.control_file.specs.declared.records.Counters.{Counters};
ghost use Rattle.status_transfer.specs.Counted.{SetsCounters};
ghost use Rattle.control_file.specs.declared.job.Job.{Job};
ghost use Rattle.catalog.specs.Cluster.{Cluster};
ghost use Rattle.catalog.specs.Valid.{IsValid};
ghost use Rattle.transfer_plan.specs.declared.plan.PlanItem.{PlanItem};
ghost use Rattle.relation_map.specs.Pairs.{entries_of};
ghost use Rattle.plan_build.specs.Plannable.{CanBePlanned, IsPlanOf};
ghost use Rattle.plan_build.specs.Carrying.{HaveOwnLocations};
ghost use Rattle.plan_facts.specs.Files.{HasOwnFiles};
ghost use Rattle.upgraded.specs.CarriedFiles.{IsPlan};
ghost use Rattle.upgraded.specs.Upgradable.{IsUpgradable};
ghost use Rattle.upgraded.specs.Upgraded.{ReadsCatalog};
ghost use Rattle.upgraded.specs.Upgrades.{RestoresSchema, CopiesStatus};

/// The plan of a catalog that both clusters have is exactly the carried files of its relations, each with both of its names.
pub fn planned_is_carried()
    ensures { (job : Job) (catalog : Cluster) (s : FsState) (items : List PlanItem) → IsValid catalog → IsPlanOf s (entries_of job catalog catalog) items → IsPlan job catalog s items }
{}

/// Once the schema and the status files were carried and the counters set, a plan by the map of the catalog can be made.
pub fn counted_can_be_planned()
    ensures { (read : ReadsCatalog) (job : Job) (catalog : Cluster) (s0 s1 s2 s3 : FsState) (given : Counters) → IsUpgradable read job catalog s0 → HasOwnFiles s0 job catalog → RestoresSchema read job catalog s0 s1 → CopiesStatus job s1 s2 → SetsCounters s2 (control_at job.new) given s3 → WellFormed s3 → HaveOwnLocations catalog.tablespaces → job.old ≢ job.new → CanBePlanned s3 (entries_of job catalog catalog) }
{}

// What follows where the checks find nothing, for the result of an upgrade.
ghost use Rattle.fs_model.specs.State.{FsState};
ghost use Rattle.fs_model.specs.WellFormed.{WellFormed};
ghost use Rattle.control_file.specs.declared.job.Job.{Job};
ghost use Rattle.catalog.specs.Cluster.{Cluster};
ghost use Rattle.catalog.specs.Valid.{IsValid};
ghost use Rattle.phase_facts.specs.CanUpgrade.{AreRead};
ghost use Rattle.upgraded.specs.Upgraded.{ReadsCatalog};
ghost use Rattle.upgraded.specs.Upgradable.{IsUpgradable};
ghost use Rattle.plan_facts.specs.Files.{HasOwnFiles};
ghost use Rattle.passed_checks.specs.Passing.{PassesFiles, PassesRelations};

/// Where they find nothing, the state has all on which it rests that an upgrade of it gives an upgraded cluster.
pub fn passed_is_upgradable()
    ensures { (read : ReadsCatalog) (s : FsState) (job : Job) (catalog : Cluster) → WellFormed s → IsValid catalog → AreRead read job catalog s → PassesFiles s job catalog → PassesRelations s job catalog → IsUpgradable read job catalog s }
{}

/// And the files of its relations are such that a plan can be made of them.
pub fn passed_has_own_files()
    ensures { (read : ReadsCatalog) (s : FsState) (job : Job) (catalog : Cluster) → IsUpgradable read job catalog s → PassesRelations s job catalog → HasOwnFiles s job catalog }
{}

// The laws of an upgraded cluster. Nothing is computed: each contract is a fact about definitions.
ghost use Rattle.std.specs.Prelude.{List};
ghost use Rattle.fs_model.specs.Names.{Path};
ghost use Rattle.fs_model.specs.State.{FsState};
ghost use Rattle.fs_model.specs.Trail.{Trail, Goes, Since, EachCrash};
ghost use Rattle.fs_model.specs.WellFormed.{WellFormed};
ghost use Rattle.crash_safety.specs.Calling.{Syncs};
ghost use Rattle.crash_safety.specs.Lacks.{Lacks};
ghost use Rattle.crash_safety.specs.Marked.{SameButMark, Marks};
ghost use Rattle.control_file.specs.declared.job.Job.{Job};
ghost use Rattle.catalog.specs.Cluster.{Cluster};
ghost use Rattle.transfer_plan.specs.declared.plan.PlanItem.{PlanItem};
ghost use Rattle.upgraded.specs.Upgraded.{ReadsCatalog, Upgraded};
ghost use Rattle.upgraded.specs.Upgradable.{IsUpgradable};
ghost use Rattle.upgraded.specs.Upgrades.{Upgrades, IsOwnMark};

/// The steps of an upgrade leave an upgraded cluster, where the checks have passed.
pub fn upgraded_law()
    ensures { (read : ReadsCatalog) (job : Job) (catalog : Cluster) (items : List PlanItem) (start restored carried counted disabled transferred x : FsState) → IsUpgradable read job catalog start → Upgrades read job catalog items start restored carried counted disabled transferred x → Upgraded read job catalog start x }
{}

/// The last phase makes the mark with a file of its own: in every state of it, and in every crash, the mark has none that was
/// there before. In every state all else is as it was.
pub fn mark_is_own()
    ensures states { (mark : Path) (a m b : Trail) → Lacks mark a.present → Goes Syncs a m → Goes (Marks mark) m b → Since (IsOwnMark mark a.present) a b }
    ensures crashes { (mark : Path) (a m b : Trail) → Lacks mark a.present → Goes Syncs a m → Goes (Marks mark) m b → EachCrash (IsOwnMark mark a.present) a b }
    ensures rest { (mark : Path) (a m b : Trail) → Lacks mark a.present → Goes Syncs a m → Goes (Marks mark) m b → WellFormed a.present → Since (SameButMark mark a.present) a b }
{}

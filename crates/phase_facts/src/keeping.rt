// What the first steps leave for those behind them.
ghost use Rattle.std.specs.Prelude.{◌≡◌, ◌≢◌, ℕ, List};
ghost use Rattle.std.specs.FinMap.{get};
ghost use Rattle.fs_model.specs.Names.{Path};
ghost use Rattle.fs_model.specs.State.{FsState};
ghost use Rattle.fs_model.specs.WellFormed.{WellFormed};
ghost use Rattle.control_file.specs.declared.job.Job.{Job};
ghost use Rattle.control_file.specs.declared.releases.Release.TheVariants.{V16};
ghost use Rattle.catalog.specs.Cluster.{Cluster};
ghost use Rattle.crash_safety.specs.Frame.{IsInside};
ghost use Rattle.crash_safety.specs.Places.{control_at};
ghost use Rattle.new_names.specs.Frame.{MakesOnly};
ghost use Rattle.catalog_server.specs.ReplayNames.{listed_names};
ghost use Rattle.status_transfer.specs.Carried.{ChangesOnlyIn};
ghost use Rattle.status_transfer.specs.Counted.{IsHeadOf};
ghost use Rattle.status_transfer.specs.Status.{status_dirs, HoldsStatus};
ghost use Rattle.phase_facts.specs.Places.{upgrade_in};
ghost use Rattle.phase_facts.specs.CanUpgrade.{CanBegin, CanUpgrade};

/// The replay of a schema leaves the old cluster's names, the directories of status files of both clusters and the head of
/// the new control file.
pub fn restoring_leaves_status()
    ensures old_names { (job : Job) (catalog before : Cluster) (head : List ℕ) (s t : FsState) → CanUpgrade job catalog head s → MakesOnly (listed_names job.new V16 before catalog) s t → (path : Path) → IsInside (upgrade_in job s).old_tops path → get t.names path ≡ get s.names path }
    ensures old_status { (job : Job) (catalog before : Cluster) (head : List ℕ) (s t : FsState) → CanUpgrade job catalog head s → MakesOnly (listed_names job.new V16 before catalog) s t → HoldsStatus t.names job.old }
    ensures new_status { (job : Job) (catalog before : Cluster) (head : List ℕ) (s t : FsState) → CanUpgrade job catalog head s → MakesOnly (listed_names job.new V16 before catalog) s t → HoldsStatus t.names job.new }
    ensures head { (job : Job) (catalog before : Cluster) (head : List ℕ) (s t : FsState) → CanUpgrade job catalog head s → MakesOnly (listed_names job.new V16 before catalog) s t → IsHeadOf t (control_at job.new) head }
{}

/// Carrying the status files leaves the head of the control file.
pub fn status_leaves_head()
    ensures { (s t : FsState) (root : Path) (head : List ℕ) → WellFormed s → ChangesOnlyIn (status_dirs root) s t → IsHeadOf s (control_at root) head → IsHeadOf t (control_at root) head }
{}

/// The two clusters are at different roots.
pub fn roots_are_apart()
    ensures { (job : Job) (s : FsState) → CanBegin job s → job.old ≢ job.new }
{}

// The last sync and the mark.
ghost use Rattle.std.specs.Prelude.{◌≡◌, ◌∷◌, [], ℕ, List};
ghost use Rattle.fs_model.specs.Crash.{Settled};
ghost use Rattle.fs_model.specs.State.{FsState};
ghost use Rattle.fs_model.specs.WellFormed.{WellFormed};
ghost use Rattle.fs_model.specs.Trail.{Trail};
ghost use Rattle.control_file.specs.declared.job.Job.{Job};
ghost use Rattle.control_file.specs.declared.releases.Release.TheVariants.{V16};
ghost use Rattle.new_names.specs.Standing.{AllStand};
ghost use Rattle.catalog_server.specs.ReplayNames.{listed_names};
ghost use Rattle.catalog.specs.Cluster.{Cluster, started};
ghost use Rattle.crash_safety.specs.Frame.{IsInside, Within};
ghost use Rattle.crash_safety.specs.Sound.{Stage, Moving};
ghost use Rattle.crash_safety.specs.Tracked.{Tracked};
ghost use Rattle.crash_safety.specs.Synced.{NeedsOnly};
ghost use Rattle.crash_safety.specs.Places.{control_at};
ghost use Rattle.last_sync.specs.declared.places.Places.{Places};
ghost use Rattle.last_sync.specs.Finished.{CanFinish, MarksAfterSync};
ghost use Rattle.phase_facts.specs.CanUpgrade.{CanUpgrade};
ghost use Rattle.phase_facts.specs.Held.{Held};
ghost use Rattle.phase_facts.specs.Finishing.{AreEndPlaces, HasRegions, IsMarkedSince};

/// Where all was on the disk at the opening, what needs a sync before the last phase is in the places that it syncs, or a name
/// in those that hold them.
pub fn last_sync_reaches_all()
    ensures tracked { (job : Job) (stage : Stage) (opening now : Trail) → Held job stage opening now → Settled opening.present → Tracked now.present }
    ensures needs { (job : Job) (catalog : Cluster) (head : List ℕ) (stage : Stage) (opening now : Trail) → CanUpgrade job catalog head opening.present → (places : Places) → AreEndPlaces job catalog places → Held job stage opening now → Settled opening.present → NeedsOnly places.tops.items places.holders.items (control_at job.new) now.present }
    ensures control { (job : Job) (catalog : Cluster) (head : List ℕ) (opening : Trail) → CanUpgrade job catalog head opening.present → (places : Places) → AreEndPlaces job catalog places → IsInside places.tops.items (control_at job.new) }
{}

/// The last phase, whatever it answers, leaves in every crash the old cluster as it was, but for the rename, and the mark only
/// where all else is as it was when all was on the disk. It leaves all but the mark.
pub fn finishing_is_marked()
    ensures marked { (job : Job) (catalog : Cluster) (head : List ℕ) (stage : Stage) → (stage ≡ Moving → ⊥) → (opening old new : Trail) → CanUpgrade job catalog head opening.present → (places : Places) → AreEndPlaces job catalog places → Held job stage opening old → MarksAfterSync places old new → IsMarkedSince job opening old new }
    ensures leaves { (places : Places) (old new : Trail) → MarksAfterSync places old new → Within (places.mark ∷ []) old.present new.present }
{}

/// The last phase is refused nothing, where the new release's directories stand at the locations, as the replay of the schema
/// leaves them and every step after it (`directories_stay`).
pub fn last_phase_is_ready()
    ensures ready { (job : Job) (catalog : Cluster) (head : List ℕ) (stage : Stage) (opening now : Trail) → CanUpgrade job catalog head opening.present → (places : Places) → AreEndPlaces job catalog places → Held job stage opening now → WellFormed now.present → HasRegions catalog now.present → CanFinish places now.present }
    ensures replay { (job : Job) (catalog : Cluster) (s : FsState) → AllStand s (listed_names job.new V16 (started catalog.bootstrap) catalog) → HasRegions catalog s }
{}

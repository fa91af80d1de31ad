// What every crash of the end of an upgrade leaves.
ghost use Rattle.std.specs.Prelude.{◌≡◌, ◌∷◌, []};
ghost use Rattle.fs_model.specs.Names.{Path};
ghost use Rattle.fs_model.specs.Trail.{Trail};
ghost use Rattle.crash_safety.specs.Frame.{IsInside};
ghost use Rattle.crash_safety.specs.Upgrade.{Upgrade, IsReady};
ghost use Rattle.crash_safety.specs.Sound.{Stage, Moving, Sound};
ghost use Rattle.crash_safety.specs.Lacks.{Lacks};
ghost use Rattle.crash_safety.specs.Tracked.{Tracked};
ghost use Rattle.crash_safety.specs.Synced.{NeedsOnly};
ghost use Rattle.last_sync.specs.declared.places.Places.{Places};
ghost use Rattle.last_sync.specs.Finished.{MarksAfterSync, IsMarkedRun};

/// From a sound state in which no crash shows the mark, and where what isn't on the disk is in the new cluster, every crash
/// of the end of an upgrade, failed or not, leaves the old cluster as it was; where the mark stands in it, it leaves all
/// else as it was when all was on the disk.
pub fn marked_crashes()
    ensures { (u : Upgrade) → IsReady u → (stage : Stage) → (stage ≡ Moving → ⊥) → (places : Places) → ((path : Path) → IsInside (places.mark ∷ []) path → IsInside u.new_tops path) → (rewritten : Path) → IsInside places.tops.items rewritten → (old : Trail) → Sound u stage old.present → Lacks places.mark old.present → Tracked old.present → NeedsOnly places.tops.items places.holders.items rewritten old.present → (new : Trail) → MarksAfterSync places old new → IsMarkedRun u stage places.mark old new }
{}

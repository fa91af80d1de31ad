// The laws of verdicts.
ghost use Rattle.std.specs.Prelude.{◌≡◌, Bool, true, None};
ghost use Rattle.crash_safety.specs.Crashes.{IsSafe, AsBefore};
ghost use Rattle.crash_safety.specs.Places.{control_at, disabled_at};
ghost use Rattle.crash_safety.specs.Sound.{Stage, Sound, IsNoOldFile};
ghost use Rattle.crash_safety.specs.Upgrade.{IsReady};
ghost use Rattle.fs_model.specs.declared.effect.Effect.{Effect};
ghost use Rattle.fs_model.specs.Calls.{Renames, Does};
ghost use Rattle.fs_model.specs.Crash.{Image};
ghost use Rattle.fs_model.specs.Effects.{apply};
ghost use Rattle.fs_model.specs.Names.{Path};
ghost use Rattle.fs_model.specs.State.{FsState};
ghost use Rattle.fs_model.specs.WellFormed.{Each};
ghost use Rattle.shared_inodes.specs.SharedInodes.{IsSharedInode};
ghost use Rattle.verdicts.specs.declared.verdict.Verdict.{Verdict};
ghost use Rattle.verdicts.specs.Crashed.{upgrade_to_16, LinksToKnown, MakesKnownLinks};
ghost use Rattle.verdicts.specs.Verdicts.{Stands, IsVerdict, IsSafeVerdict};

/// Where a crash left the old cluster as it was, but for the rename, and apart from the new one, the verdict is neither
/// `Unsafe` nor `NoControl`: the old cluster can be used, at once or once its control file has its name again, or the
/// upgrade is finished. For that the old cluster's control file stood at the start, and each location that the new cluster
/// links to is one of the old cluster's. Every crash of a state that keeps the crash invariant is one of these.
pub fn crashes_have_safe_verdicts()
    ensures safe { (start : FsState) (old new : Path) (disables : Bool) → IsReady (upgrade_to_16 start old new disables) → Stands start (control_at old) → (x : FsState) → IsSafe (upgrade_to_16 start old new disables) x
        → LinksToKnown start.names old x.names new → (verdict : Verdict) → IsVerdict x old new verdict → IsSafeVerdict verdict }
    ensures crashes { (start : FsState) (old new : Path) (disables : Bool) → IsReady (upgrade_to_16 start old new disables) → Stands start (control_at old) → (stage : Stage) (s x : FsState)
        → Sound (upgrade_to_16 start old new disables) stage s → MakesKnownLinks start.names old new s → Image s x → (verdict : Verdict) → IsVerdict x old new verdict → IsSafeVerdict verdict }
{}

/// Where the links of the new cluster on the disk, and those that wait to be put there, lead to the old cluster's locations,
/// so do those of each crash.
pub fn crashes_keep_known_links()
    ensures { (start : FsState) (old new : Path) (s x : FsState) → MakesKnownLinks start.names old new s → Image s x → LinksToKnown start.names old x.names new }
{}

/// Where a crash of an upgrade that disables the old cluster left its control file under its other name, naming it back
/// gives the old cluster the names, nodes and bytes of the start.
pub fn naming_back_restores()
    ensures { (start : FsState) (old new : Path) → IsReady (upgrade_to_16 start old new true) → (x : FsState) → IsSafe (upgrade_to_16 start old new true) x → (effect : Effect) → Does x (Renames (disabled_at old) (control_at old)) effect
        → AsBefore start (upgrade_to_16 start old new true).old_tops (apply x effect) }
{}

/// There is one verdict on two clusters.
pub fn verdicts_are_one()
    ensures { (s : FsState) (old new : Path) (one two : Verdict) → IsVerdict s old new one → IsVerdict s old new two → one ≡ two }
{}

/// Where the clusters share no file, no file of the old cluster is at a place of the new one: the upgrade may begin.
pub fn unshared_clusters_are_apart()
    ensures { (start : FsState) (old new : Path) (disables : Bool) → IsSharedInode start old new None → Each (IsNoOldFile (upgrade_to_16 start old new disables)) start.names }
{}

// The laws of the crash invariant, state by state. Nothing is computed: each contract is a fact about definitions.
ghost use Rattle.std.specs.Prelude.{◌≡◌, false, true, Option, None};
ghost use Rattle.std.specs.FinMap.{get};
ghost use Rattle.fs_model.specs.declared.effect.Effect.{Effect};
ghost use Rattle.fs_model.specs.declared.error.FsError.{FsError};
ghost use Rattle.fs_model.specs.Names.{Path, parent};
ghost use Rattle.fs_model.specs.State.{FsState};
ghost use Rattle.fs_model.specs.Effects.{apply};
ghost use Rattle.fs_model.specs.Calls.{Call, MayDo, Does, Renames, SyncsDir};
ghost use Rattle.fs_model.specs.Crash.{Image};
ghost use Rattle.fs_model.specs.Trail.{Trail, Steps};
ghost use Rattle.fs_model.specs.WellFormed.{Each};
ghost use Rattle.crash_safety.specs.Frame.{IsUntouched};
ghost use Rattle.crash_safety.specs.Upgrade.{Upgrade, IsReady};
ghost use Rattle.crash_safety.specs.Sound.{Stage, Whole, Moving, Moved, is_moved_kept, IsNoOldFile, Sound, IsSafeCall, HasNoOldFile};
ghost use Rattle.crash_safety.specs.Crashes.{IsSafe, IsRenamed, AsBefore};
ghost use Rattle.crash_safety.specs.Lacks.{Lacks, MakesNone};
ghost use Rattle.crash_safety.specs.Tracked.{Tracked};

/// Where all is on the disk and the clusters share no file, an upgrade may begin.
pub fn settled_start_is_sound()
    ensures { (u : Upgrade) → IsReady u → Each (IsNoOldFile u) u.start.names → Sound u Whole u.start }
{}

/// A call that an upgrade may make keeps the crash invariant, whatever it answers: refused, failed with its effect or
/// without, and a write that was torn. Until the rename is on the disk the new cluster's control file may be written to.
pub fn calls_keep_sound()
    ensures each { (u : Upgrade) → IsReady u → (stage : Stage) (s : FsState) (call : Call) (answer : Option FsError) (effect : Effect) → Sound u stage s → IsSafeCall u stage s call → MayDo s call answer effect → Sound u stage (apply s effect) }
    ensures control { (u : Upgrade) → IsReady u → (stage : Stage) (s : FsState) → is_moved_kept stage ≡ false → Sound u stage s → HasNoOldFile u s u.new_control }
{}

/// The rename of the control file, and putting its directory on the disk, lead from stage to stage.
pub fn rename_goes_on()
    ensures begins { (u : Upgrade) → IsReady u → u.disables ≡ true → (s : FsState) (effect : Effect) → Sound u Whole s → Does s (Renames u.control u.renamed) effect → Sound u Moving (apply s effect) }
    ensures ends { (u : Upgrade) → IsReady u → u.disables ≡ true → (s : FsState) (effect : Effect) → Sound u Moving s → Does s (SyncsDir (parent u.control)) effect → Sound u Moved (apply s effect) }
{}

/// Every crash of a sound state leaves the old cluster as it was, but for the rename, and apart from the new one. An
/// upgrade that disables nothing leaves it as before.
pub fn images_are_safe()
    ensures each { (u : Upgrade) → IsReady u → (stage : Stage) (s x : FsState) → Sound u stage s → Image s x → IsSafe u x }
    ensures copies { (u : Upgrade) → IsReady u → u.disables ≡ false → (x : FsState) → IsSafe u x → AsBefore u.start u.old_tops x }
{}

/// Once the rename is on the disk, every crash leaves the control file under its other name.
pub fn moved_stays_moved()
    ensures renamed { (u : Upgrade) → IsReady u → (s x : FsState) → Sound u Moved s → Image s x → IsRenamed u x }
    ensures lacks { (u : Upgrade) → IsReady u → (s : FsState) → Sound u Moved s → Lacks u.control s }
    ensures told_by_lack { (u : Upgrade) → IsReady u → u.disables ≡ true → (stage : Stage) (s : FsState) → Sound u stage s → get s.names_kept u.control ≡ None → stage ≡ Moved }
{}

/// A name that no crash brings back stays so over each call that doesn't make it.
pub fn lacks_stays()
    ensures calls { (path : Path) (s : FsState) (call : Call) (answer : Option FsError) (effect : Effect) → Lacks path s → MakesNone path call → MayDo s call answer effect → Lacks path (apply s effect) }
    ensures images { (path : Path) (s x : FsState) → Lacks path s → Image s x → get x.names path ≡ None }
{}

/// A name that is gone, and of whose directory nothing waits, no crash brings back: the sync of the directory is the
/// permit for what must not happen before.
pub fn sync_gives_permit()
    ensures untouched { (path : Path) (s : FsState) → Tracked s → get s.names path ≡ None → IsUntouched s.pending path → Lacks path s }
    ensures synced { (path : Path) (a b : Trail) → Tracked a.present → get a.present.names path ≡ None → Steps (SyncsDir (parent path)) None a b → Lacks path b.present }
{}

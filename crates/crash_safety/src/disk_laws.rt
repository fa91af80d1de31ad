// The laws of what is on the disk: from the beginning over every run to the state after the last sync.
ghost use Rattle.std.specs.Prelude.{◌≡◌, false, List, None};
ghost use Rattle.fs_model.specs.Names.{Path, parent};
ghost use Rattle.fs_model.specs.State.{FsState};
ghost use Rattle.fs_model.specs.Calls.{Renames, SyncsDir, is_root};
ghost use Rattle.fs_model.specs.Crash.{Settled};
ghost use Rattle.fs_model.specs.WellFormed.{WellFormed};
ghost use Rattle.fs_model.specs.Trail.{Trail, Steps, Goes, Since};
ghost use Rattle.crash_safety.specs.Frame.{IsInside, IsOutside, Within};
ghost use Rattle.crash_safety.specs.Calling.{AnyCall, KeepsWithin, MakesWithin, Rewrites, LinksInside};
ghost use Rattle.crash_safety.specs.Tracked.{Tracked};
ghost use Rattle.crash_safety.specs.Synced.{IsSynced, IsHeld, AreQuiet, NeedsOnly};

/// In a state of which all is on the disk, nothing waits.
pub fn settled_start_is_tracked()
    ensures tracked { (s : FsState) → Settled s → WellFormed s → Tracked s }
    ensures needs { (tops holders : List Path) (rewritten : Path) (s : FsState) → Settled s → NeedsOnly tops holders rewritten s }
{}

/// Whatever calls a run makes, what isn't on the disk waits to be put there.
pub fn runs_keep_track()
    ensures { (a b : Trail) → Tracked a.present → Goes AnyCall a b → Since Tracked a b }
{}

/// Runs that leave what needs a sync inside: within inner directories whose names stand in directories inside, or in those
/// that hold them, of which none is removed; by links there; by writes to the one file that stood at the beginning; and, once its directory is on
/// the disk, by the rename of a name outside.
pub fn runs_need_inside()
    ensures keeps { (tops holders : List Path) (rewritten : Path) (inner : List Path) → IsOutside inner rewritten → ((path : Path) → IsInside inner path → IsInside tops path × IsHeld tops holders (parent path) × (is_root path ≡ false)) → (a b : Trail) → Tracked a.present → NeedsOnly tops holders rewritten a.present → Goes (KeepsWithin inner a.present) a b → Since (λ s. Within inner a.present s × Tracked s × NeedsOnly tops holders rewritten s) a b }
    ensures makes { (tops holders : List Path) (rewritten : Path) (inner : List Path) → IsOutside inner rewritten → ((path : Path) → IsInside inner path → IsInside tops path × IsHeld tops holders (parent path) × (is_root path ≡ false)) → (a b : Trail) → Tracked a.present → NeedsOnly tops holders rewritten a.present → Goes (MakesWithin inner a.present) a b → Since (λ s. Within inner a.present s × Tracked s × NeedsOnly tops holders rewritten s) a b }
    ensures links { (tops holders : List Path) (rewritten : Path) (inner : List Path) → IsOutside inner rewritten → ((path : Path) → IsInside inner path → IsInside tops path × IsHeld tops holders (parent path) × (is_root path ≡ false)) → (a b : Trail) → Tracked a.present → NeedsOnly tops holders rewritten a.present → Goes (LinksInside inner) a b → Since (λ s. Within inner a.present s × Tracked s × NeedsOnly tops holders rewritten s) a b }
    ensures rewrites { (tops holders : List Path) (rewritten : Path) (a b : Trail) → NeedsOnly tops holders rewritten a.present → Goes (Rewrites rewritten) a b → Since (NeedsOnly tops holders rewritten) a b }
    ensures renamed { (tops holders : List Path) (rewritten control later : Path) (a b c : Trail) → NeedsOnly tops holders rewritten a.present → IsInside tops rewritten → IsOutside tops control → IsOutside tops later → Steps (Renames control later) None a b → Steps (SyncsDir (parent control)) None b c → NeedsOnly tops holders rewritten c.present }
{}

/// Where all that needs a sync is inside directories that are synced, or waits in those that hold them and nothing waits
/// there, all is on the disk.
pub fn all_synced_is_settled()
    ensures { (tops holders : List Path) (rewritten : Path) → IsInside tops rewritten → (s : FsState) → Tracked s → NeedsOnly tops holders rewritten s → IsSynced tops s → AreQuiet holders s → Settled s }
{}

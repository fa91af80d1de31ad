// The laws of the crash invariant, run by run: what each state has that a run of allowed calls leads through.
ghost use Rattle.std.specs.Prelude.{◌≡◌, true, List, Option, None};
ghost use Rattle.fs_model.specs.declared.error.FsError.{FsError};
ghost use Rattle.fs_model.specs.Names.{Path, parent};
ghost use Rattle.fs_model.specs.Calls.{Renames, SyncsDir};
ghost use Rattle.fs_model.specs.Trail.{Trail, Steps, Goes, Since, EachCrash};
ghost use Rattle.crash_safety.specs.Frame.{IsInside, IsOutside, Within, StaysWithin};
ghost use Rattle.crash_safety.specs.Calling.{MakesWithin, Rewrites, LinksInside};
ghost use Rattle.crash_safety.specs.Upgrade.{Upgrade, IsReady};
ghost use Rattle.crash_safety.specs.Sound.{Stage, Whole, Moving, Moved, Sound, IsSound, IsSafeCall, HasNoOldFile};
ghost use Rattle.crash_safety.specs.Crashes.{IsSafe, StaysRenamed};
ghost use Rattle.crash_safety.specs.Lacks.{Lacks};

/// Of a run that keeps within directories, each state has all else as its beginning had it.
pub fn runs_keep_within()
    ensures { (tops : List Path) (a b : Trail) → Goes (StaysWithin tops a.present) a b → Since (Within tops a.present) a b }
{}

/// A run within some directories that is followed by one within inner ones is one run, though the second counts as new
/// only what is new since its own beginning.
pub fn runs_join()
    ensures { (tops inner : List Path) → ((path : Path) → IsInside inner path → IsInside tops path) → (a b c : Trail) → Goes (MakesWithin tops a.present) a b → Goes (MakesWithin inner b.present) b c → Goes (MakesWithin tops a.present) a c }
{}

/// Runs that keep the crash invariant at its stage: of safe calls; of calls that make names at new places and write to
/// new files; once the rename is on the disk, of links into new places; of writes to one file that is none of the old
/// cluster's.
pub fn runs_keep_sound()
    ensures safe { (u : Upgrade) → IsReady u → (stage : Stage) (a b : Trail) → Sound u stage a.present → Goes (IsSafeCall u stage) a b → Since (Sound u stage) a b }
    ensures makes { (u : Upgrade) → IsReady u → (stage : Stage) (tops : List Path) → ((path : Path) → IsInside tops path → IsInside u.new_tops path) → (stage ≡ Moving → ⊥) → (a b : Trail) → Sound u stage a.present → Goes (MakesWithin tops a.present) a b → Since (Sound u stage) a b }
    ensures links { (u : Upgrade) → IsReady u → (tops : List Path) → ((path : Path) → IsInside tops path → IsInside u.new_tops path) → (a b : Trail) → Sound u Moved a.present → Goes (LinksInside tops) a b → Since (Sound u Moved) a b }
    ensures rewrites { (u : Upgrade) → IsReady u → (stage : Stage) (at : Path) (a b : Trail) → Sound u stage a.present → HasNoOldFile u a.present at → Goes (Rewrites at) a b → Since (Sound u stage) a b }
{}

/// The rename and its sync, whatever they answer: each state is sound at one stage or another, and after Ok at the next.
pub fn rename_runs()
    ensures renames { (u : Upgrade) → IsReady u → u.disables ≡ true → (answer : Option FsError) (a b : Trail) → Sound u Whole a.present → Steps (Renames u.control u.renamed) answer a b → Since (IsSound u) a b }
    ensures moving { (u : Upgrade) → IsReady u → u.disables ≡ true → (a b : Trail) → Sound u Whole a.present → Steps (Renames u.control u.renamed) None a b → Sound u Moving b.present }
    ensures syncs { (u : Upgrade) → IsReady u → u.disables ≡ true → (answer : Option FsError) (a b : Trail) → Sound u Moving a.present → Steps (SyncsDir (parent u.control)) answer a b → Since (IsSound u) a b }
    ensures moved { (u : Upgrade) → IsReady u → u.disables ≡ true → (a b : Trail) → Sound u Moving a.present → Steps (SyncsDir (parent u.control)) None a b → Sound u Moved b.present }
{}

/// Every crash of a run whose states are sound leaves the old cluster as it was, but for the rename, and apart from the
/// new one; where the names on the disk lack the control file, it leaves it renamed.
pub fn sound_runs_are_safe()
    ensures crashes { (u : Upgrade) → IsReady u → (a b : Trail) → Since (IsSound u) a b → EachCrash (IsSafe u) a b }
    ensures renamed { (u : Upgrade) → IsReady u → u.disables ≡ true → (a b : Trail) → Since (IsSound u) a b → Since (StaysRenamed u) a b }
{}

/// A name outside the directories that a run keeps within is not made by it.
pub fn runs_keep_lack()
    ensures { (tops : List Path) (path : Path) → IsOutside tops path → (a b : Trail) → Lacks path a.present → Goes (StaysWithin tops a.present) a b → Since (Lacks path) a b }
{}

// The laws of what, once it holds, holds of every later state.
ghost use Rattle.std.specs.Prelude.{◌≡◌, true, Option};
ghost use Rattle.fs_model.specs.declared.error.FsError.{FsError};
ghost use Rattle.fs_model.specs.Names.{Path, parent};
ghost use Rattle.fs_model.specs.Calls.{Call, Renames, SyncsDir};
ghost use Rattle.fs_model.specs.Trail.{Trail, Steps, Since};
ghost use Rattle.crash_safety.specs.Upgrade.{Upgrade, IsReady};
ghost use Rattle.crash_safety.specs.Sound.{Whole, Moving, Moved, Sound};
ghost use Rattle.crash_safety.specs.Lasting.{Lasts, IsOffDisk};

/// That a name, once it is off the disk, stays so: of runs after each other, of a run that has it throughout or never, and
/// of one call where the name was on the disk before.
pub fn stays_off_disk()
    ensures joined { (path : Path) (a b c : Trail) → Lasts (IsOffDisk path) a b → Lasts (IsOffDisk path) b c → Lasts (IsOffDisk path) a c }
    ensures always { (path : Path) (a b : Trail) → Since (IsOffDisk path) a b → Lasts (IsOffDisk path) a b }
    ensures never { (path : Path) (a b : Trail) → Since (λ s. IsOffDisk path s → ⊥) a b → Lasts (IsOffDisk path) a b }
    ensures step { (path : Path) (call : Call) (answer : Option FsError) (a b : Trail) → (IsOffDisk path a.present → ⊥) → Steps call answer a b → Lasts (IsOffDisk path) a b }
{}

/// The rename of the control file, once it is on the disk, is there in every later state: before it, over the rename and
/// its sync, and after it.
pub fn rename_stays_on_disk()
    ensures whole { (u : Upgrade) → IsReady u → u.disables ≡ true → (a b : Trail) → Since (Sound u Whole) a b → Lasts (IsOffDisk u.control) a b }
    ensures renames { (u : Upgrade) → IsReady u → u.disables ≡ true → (answer : Option FsError) (a b : Trail) → Sound u Whole a.present → Steps (Renames u.control u.renamed) answer a b → Lasts (IsOffDisk u.control) a b }
    ensures syncs { (u : Upgrade) → IsReady u → u.disables ≡ true → (answer : Option FsError) (a b : Trail) → Sound u Moving a.present → Steps (SyncsDir (parent u.control)) answer a b → Lasts (IsOffDisk u.control) a b }
    ensures moved { (u : Upgrade) → IsReady u → u.disables ≡ true → (a b : Trail) → Since (Sound u Moved) a b → Lasts (IsOffDisk u.control) a b }
{}

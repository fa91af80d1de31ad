// Disabling the old cluster.
ghost use Rattle.std.specs.Prelude.{◌≡◌, List, true, None};
ghost use Rattle.fs_model.specs.Names.{Path, parent};
ghost use Rattle.fs_model.specs.Calls.{Renames, refusal};
ghost use Rattle.fs_model.specs.WellFormed.{WellFormed};
ghost use Rattle.fs_model.specs.Trail.{Trail, Goes, Since};
ghost use Rattle.control_file.specs.declared.job.Job.{Job};
ghost use Rattle.crash_safety.specs.Sound.{Whole, Moved, Sound, IsSound};
ghost use Rattle.crash_safety.specs.Lacks.{Lacks};
ghost use Rattle.crash_safety.specs.Lasting.{Lasts, IsOffDisk};
ghost use Rattle.crash_safety.specs.Places.{control_at, disabled_at};
ghost use Rattle.disable_old.specs.Renamed.{IsRenamed, Disables};
ghost use Rattle.phase_facts.specs.Places.{disables};
ghost use Rattle.phase_facts.specs.Disabling.{ForEachUpgrade};
ghost use Rattle.phase_facts.specs.Held.{IsSafeSince, Held};

/// Until the old cluster is disabled, the rename of its control file is allowed.
pub fn rename_stays_free()
    ensures { (job : Job) (opening a : Trail) → disables job.mode ≡ true → Held job Whole opening a → refusal a.present (Renames (control_at job.old) (disabled_at job.old)) ≡ None }
{}

/// Disabling the old cluster is safe whatever it answers, and keeps the fact of the phases at Ok, where the rename is on the
/// disk.
pub fn disabling_keeps_held()
    ensures safe { (job : Job) (opening a b : Trail) → disables job.mode ≡ true → Held job Whole opening a → (dir : Path) → ForEachUpgrade (control_at job.old) (disabled_at job.old) a.present (λ u. Since (IsSound u) a b) → ForEachUpgrade (control_at job.old) (disabled_at job.old) a.present (λ u. Lasts (IsOffDisk u.control) a b) → Goes (Disables (control_at job.old) (disabled_at job.old) dir) a b → IsSafeSince job opening b }
    ensures held { (job : Job) (opening a b : Trail) → disables job.mode ≡ true → Held job Whole opening a → (dir : Path) → ForEachUpgrade (control_at job.old) (disabled_at job.old) a.present (λ u. Since (IsSound u) a b) → ForEachUpgrade (control_at job.old) (disabled_at job.old) a.present (λ u. Lasts (IsOffDisk u.control) a b) → Goes (Disables (control_at job.old) (disabled_at job.old) dir) a b → ForEachUpgrade (control_at job.old) (disabled_at job.old) a.present (λ u. Sound u Moved b.present) → IsRenamed a.present (control_at job.old) (disabled_at job.old) dir b.present → Held job Moved opening b }
{}

/// Once the old cluster is disabled no crash brings its control file back, whatever waited to be put on the disk before: the
/// fact of the permit to link.
pub fn disabling_gives_permit()
    ensures { (control renamed dir : Path) (a b : Trail) → dir ≡ parent control → WellFormed a.present → refusal a.present (Renames control renamed) ≡ None → Goes (Disables control renamed dir) a b → IsRenamed a.present control renamed dir b.present → Lacks control b.present }
{}

// Disabling the old cluster.
ghost use Rattle.std.specs.Prelude.{◌≡◌, true};
ghost use Rattle.fs_model.specs.Names.{Path};
ghost use Rattle.fs_model.specs.Trail.{Trail, Goes, Since};
ghost use Rattle.control_file.specs.declared.job.Job.{Job};
ghost use Rattle.crash_safety.specs.Places.{control_at, disabled_at};
ghost use Rattle.disable_old.specs.Renamed.{Disables};
ghost use Rattle.phase_facts.specs.Places.{disables};
ghost use Rattle.phase_facts.specs.CanUpgrade.{CanBegin};
ghost use Rattle.phase_frames.specs.Framed.{IsFramed};

/// Disabling the old cluster renames its control file, once or not at all, and leaves all else as at the start.
pub fn disabling_keeps_frame()
    ensures { (job : Job) (opening a b : Trail) → CanBegin job opening.present → disables job.mode ≡ true → IsFramed job opening.present a.present → (dir : Path) → Goes (Disables (control_at job.old) (disabled_at job.old) dir) a b → Since (IsFramed job opening.present) a b }
{}

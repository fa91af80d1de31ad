// Runs that make names at new places, and runs that read.
ghost use Rattle.std.specs.Prelude.{List};
ghost use Rattle.fs_model.specs.Names.{Path};
ghost use Rattle.fs_model.specs.Trail.{Trail, Goes, Since, Unchanged};
ghost use Rattle.crash_safety.specs.Frame.{IsInside, IsOutside, StaysWithin};
ghost use Rattle.crash_safety.specs.Places.{control_at};
ghost use Rattle.control_file.specs.declared.job.Job.{Job};
ghost use Rattle.phase_facts.specs.Places.{upgrade_in};
ghost use Rattle.phase_frames.specs.Framed.{IsFramed};

/// A run that changes names at new places alone, the new control file's not among them, and writes to new files alone, leaves
/// all else as at the start, and so does one that only reads.
pub fn making_keeps_frame()
    ensures makes { (job : Job) (opening a b : Trail) (tops : List Path) → ((path : Path) → IsInside tops path → IsInside (upgrade_in job opening.present).new_tops path) → IsOutside tops (control_at job.new) → IsFramed job opening.present a.present → Goes (StaysWithin tops a.present) a b → Since (IsFramed job opening.present) a b }
    ensures reads { (job : Job) (opening a b : Trail) → IsFramed job opening.present a.present → Unchanged a b → Since (IsFramed job opening.present) a b }
{}

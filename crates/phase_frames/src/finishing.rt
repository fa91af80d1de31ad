// The last phase.
ghost use Rattle.std.specs.Prelude.{◌≡◌};
ghost use Rattle.fs_model.specs.Trail.{Trail, Since};
ghost use Rattle.control_file.specs.declared.job.Job.{Job};
ghost use Rattle.last_sync.specs.declared.places.Places.{Places};
ghost use Rattle.last_sync.specs.Finished.{MarksAfterSync};
ghost use Rattle.phase_facts.specs.Places.{mark_at};
ghost use Rattle.phase_frames.specs.Framed.{IsFramed};

/// The last phase makes the mark, which is a new place, and puts things on the disk.
pub fn finishing_keeps_frame()
    ensures { (job : Job) (opening a b : Trail) (places : Places) → places.mark ≡ mark_at job.new → IsFramed job opening.present a.present → MarksAfterSync places a b → Since (IsFramed job opening.present) a b }
{}

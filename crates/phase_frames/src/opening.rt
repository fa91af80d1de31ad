// The opening.
ghost use Rattle.fs_model.specs.State.{FsState};
ghost use Rattle.control_file.specs.declared.job.Job.{Job};
ghost use Rattle.phase_frames.specs.Framed.{IsFramed};

/// The state that an upgrade opens in is as it was then.
pub fn opening_is_framed()
    ensures { (job : Job) (s : FsState) → IsFramed job s s }
{}

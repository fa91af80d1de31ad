// Carrying the files of transaction status, and setting the counters.
ghost use Rattle.fs_model.specs.Trail.{Trail, Goes, Since};
ghost use Rattle.control_file.specs.declared.job.Job.{Job};
ghost use Rattle.crash_safety.specs.Places.{control_at};
ghost use Rattle.status_transfer.specs.Carried.{CarriesInto};
ghost use Rattle.status_transfer.specs.Counted.{KeepsAllBut};
ghost use Rattle.status_transfer.specs.Status.{status_dirs};
ghost use Rattle.phase_facts.specs.CanUpgrade.{CanBegin};
ghost use Rattle.phase_frames.specs.Framed.{IsFramed};

/// Carrying the files of transaction status leaves all but new places as at the start, and so does setting the counters in the
/// new cluster's control file.
pub fn status_keeps_frame()
    ensures carries { (job : Job) (opening a b : Trail) → CanBegin job opening.present → IsFramed job opening.present a.present → Goes (CarriesInto (status_dirs job.new) a.present) a b → Since (IsFramed job opening.present) a b }
    ensures counts { (job : Job) (opening a b : Trail) → IsFramed job opening.present a.present → Since (KeepsAllBut (control_at job.new) a.present) a b → Since (IsFramed job opening.present) a b }
{}

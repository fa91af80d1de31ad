// Carrying the files of transaction status, and setting the counters.
ghost use Rattle.std.specs.Prelude.{◌≡◌};
ghost use Rattle.fs_model.specs.Trail.{Trail, Goes, Since};
ghost use Rattle.control_file.specs.declared.job.Job.{Job};
ghost use Rattle.crash_safety.specs.Calling.{Rewrites};
ghost use Rattle.crash_safety.specs.Sound.{Whole};
ghost use Rattle.crash_safety.specs.Places.{control_at};
ghost use Rattle.status_transfer.specs.Carried.{CarriesInto};
ghost use Rattle.status_transfer.specs.Counted.{KeepsAllBut};
ghost use Rattle.status_transfer.specs.Status.{status_dirs};
ghost use Rattle.phase_facts.specs.Held.{Held};

/// Carrying the files of transaction status keeps the fact of the phases, and so does setting the counters in the new
/// cluster's control file, which is none of the old cluster's files.
pub fn status_keeps_held()
    ensures carries { (job : Job) (opening a b : Trail) → Held job Whole opening a → Goes (CarriesInto (status_dirs job.new) a.present) a b → Held job Whole opening b }
    ensures counts { (job : Job) (opening a b : Trail) → Held job Whole opening a → Goes (Rewrites (control_at job.new)) a b → Since (KeepsAllBut (control_at job.new) a.present) a b → Held job Whole opening b }
{}

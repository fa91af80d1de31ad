// What every crash of an upgrade leaves.
ghost use Rattle.fs_model.specs.Crash.{Settled};
ghost use Rattle.fs_model.specs.Trail.{Trail, EachCrash};
ghost use Rattle.control_file.specs.declared.job.Job.{Job};
ghost use Rattle.phase_facts.specs.CanUpgrade.{CanBegin};
ghost use Rattle.phase_facts.specs.Held.{IsSafeSince, CrashFacts, ShowsNoMark};
ghost use Rattle.phase_facts.specs.Finishing.{IsMarkedSince};

/// Where all was on the disk at the opening, every crash leaves the old cluster as it was, but for the rename, and before the
/// last phase no mark.
pub fn crashes_are_safe()
    ensures facts { (job : Job) (opening now : Trail) → CanBegin job opening.present → Settled opening.present → IsSafeSince job opening now → CrashFacts job opening now }
    ensures no_mark { (job : Job) (opening now : Trail) → CanBegin job opening.present → Settled opening.present → IsSafeSince job opening now → EachCrash (ShowsNoMark job) opening now }
    ensures marked { (job : Job) (opening now : Trail) → CanBegin job opening.present → Settled opening.present → (before : Trail) → IsMarkedSince job opening before now → CrashFacts job opening now }
{}

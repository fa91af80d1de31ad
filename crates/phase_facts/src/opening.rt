// The opening.
ghost use Rattle.std.specs.Prelude.{◌≡◌};
ghost use Rattle.fs_model.specs.Trail.{Trail};
ghost use Rattle.control_file.specs.declared.job.Job.{Job};
ghost use Rattle.crash_safety.specs.Sound.{Whole};
ghost use Rattle.phase_facts.specs.CanUpgrade.{CanBegin};
ghost use Rattle.phase_facts.specs.Held.{Held};

/// Where an upgrade may begin, the fact of the phases holds of the state that it opens in.
pub fn opening_is_held()
    ensures { (job : Job) (t : Trail) → CanBegin job t.present → Held job Whole t t }
{}

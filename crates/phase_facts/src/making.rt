// Runs that make names at new places, and runs that read.
ghost use Rattle.std.specs.Prelude.{◌≡◌, List};
ghost use Rattle.fs_model.specs.Names.{Path};
ghost use Rattle.fs_model.specs.Trail.{Trail, Goes, Unchanged};
ghost use Rattle.crash_safety.specs.Calling.{MakesWithin};
ghost use Rattle.crash_safety.specs.Sound.{Stage, Moving};
ghost use Rattle.control_file.specs.declared.job.Job.{Job};
ghost use Rattle.phase_facts.specs.Places.{AreNewPlaces};
ghost use Rattle.phase_facts.specs.Held.{Held};

/// A run that makes and removes names at new places alone, and writes to new files alone, keeps the fact of the phases,
/// and so does one that only reads.
pub fn making_keeps_held()
    ensures makes { (job : Job) (stage : Stage) → (stage ≡ Moving → ⊥) → (opening a b : Trail) → Held job stage opening a → (tops : List Path) → AreNewPlaces job opening.present tops → Goes (MakesWithin tops a.present) a b → Held job stage opening b }
    ensures reads { (job : Job) (stage : Stage) → (stage ≡ Moving → ⊥) → (opening a b : Trail) → Held job stage opening a → Unchanged a b → Held job stage opening b }
{}

// The replay of the old cluster's schema on the new cluster.
ghost use Rattle.std.specs.Prelude.{◌≡◌, ℕ, List};
ghost use Rattle.fs_model.specs.Trail.{Trail, Goes};
ghost use Rattle.control_file.specs.declared.job.Job.{Job};
ghost use Rattle.control_file.specs.declared.releases.Release.TheVariants.{V16};
ghost use Rattle.catalog.specs.Cluster.{Cluster};
ghost use Rattle.crash_safety.specs.Sound.{Whole};
ghost use Rattle.new_names.specs.Frame.{MakesListed};
ghost use Rattle.catalog_server.specs.ReplayNames.{listed_names};
ghost use Rattle.phase_facts.specs.CanUpgrade.{CanUpgrade};
ghost use Rattle.phase_facts.specs.Held.{Held};

/// The replay of a catalog with these tablespaces keeps the fact of the phases, in every state and whatever it answers.
pub fn restoring_keeps_held()
    ensures { (job : Job) (catalog before : Cluster) (head : List ℕ) (opening a b : Trail) → CanUpgrade job catalog head opening.present → Held job Whole opening a → Goes (MakesListed (listed_names job.new V16 before catalog) a.present) a b → Held job Whole opening b }
{}

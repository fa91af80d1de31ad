// The replay of the old cluster's schema on the new cluster.
ghost use Rattle.std.specs.Prelude.{ℕ, List};
ghost use Rattle.fs_model.specs.Trail.{Trail, Goes, Since};
ghost use Rattle.control_file.specs.declared.job.Job.{Job};
ghost use Rattle.control_file.specs.declared.releases.Release.TheVariants.{V16};
ghost use Rattle.catalog.specs.Cluster.{Cluster};
ghost use Rattle.new_names.specs.Frame.{MakesListed};
ghost use Rattle.catalog_server.specs.ReplayNames.{listed_names};
ghost use Rattle.phase_facts.specs.CanUpgrade.{CanUpgrade};
ghost use Rattle.phase_frames.specs.Framed.{IsFramed};

/// The replay of a catalog with these tablespaces leaves all but new places as at the start, in every state and whatever it
/// answers.
pub fn restoring_keeps_frame()
    ensures { (job : Job) (catalog before : Cluster) (head : List ℕ) (opening a b : Trail) → CanUpgrade job catalog head opening.present → IsFramed job opening.present a.present → Goes (MakesListed (listed_names job.new V16 before catalog) a.present) a b → Since (IsFramed job opening.present) a b }
{}

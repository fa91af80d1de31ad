// What follows where the checks of directories, releases and control files find nothing.
ghost use Rattle.fs_model.specs.State.{FsState};
ghost use Rattle.control_file.specs.declared.job.Job.{Job};
ghost use Rattle.passed_checks.specs.Controls.{FindsNoControl, AreStoppedClusters};

/// Where they find nothing, both are stopped clusters, neither in the other.
pub fn stopped_clusters_law()
    ensures { (s : FsState) (job : Job) → FindsNoControl s job → AreStoppedClusters s job }
{}

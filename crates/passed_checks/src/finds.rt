// What follows where no condition of a refusal holds.
ghost use Rattle.fs_model.specs.State.{FsState};
ghost use Rattle.control_file.specs.declared.job.Job.{Job};
ghost use Rattle.catalog.specs.Cluster.{Cluster};
ghost use Rattle.phase_facts.specs.CanUpgrade.{AreRead};
ghost use Rattle.upgrade_checks.specs.Findings.{Reader, readings_in};
ghost use Rattle.upgrade_checks.specs.Passing.{FindsNothing};
ghost use Rattle.passed_checks.specs.Passing.{PassesFiles, PassesRelations};

/// Where none holds, the server reads the old cluster's catalog and that which the new one's bootstrap role starts with, and
/// directories and files are as the steps need them.
pub fn found_nothing_law()
    ensures { (read : Reader) (s : FsState) (job : Job) → FindsNothing s job (readings_in read s job) → (catalog : Cluster) × AreRead read job catalog s × PassesFiles s job catalog × PassesRelations s job catalog }
{}

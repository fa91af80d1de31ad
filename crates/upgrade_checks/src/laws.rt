ghost use Rattle.std.specs.Prelude.{◌≡◌, Some, None};
ghost use Rattle.fs_model.specs.State.{FsState};
ghost use Rattle.control_file.specs.declared.job.Job.{Job};
ghost use Rattle.compat_checks.specs.declared.refusal.Refusal.{Refusal};
ghost use Rattle.compat_checks.specs.Order.{order};
ghost use Rattle.upgrade_checks.specs.Findings.{Readings};
ghost use Rattle.upgrade_checks.specs.Passing.{Holds, IsFirst, Passes, FindsNothing, FindsFirst, AreFresh};

/// A law, with nothing to run: the first refusal that the tests find, in their order, is the one whose condition holds and no
/// earlier one's does; where they find nothing, no condition holds; and no refusal is first where none holds.
pub fn first_found_is_first()
    ensures first { (s : FsState) (job : Job) (readings : Readings) (refusal : Refusal) → FindsFirst s job readings order (Some refusal) → IsFirst s job readings refusal }
    ensures nothing { (s : FsState) (job : Job) (readings : Readings) → FindsFirst s job readings order None → FindsNothing s job readings }
    ensures passes { (s : FsState) (job : Job) (readings : Readings) → FindsNothing s job readings → Passes s job readings }
{}

/// A law, with nothing to run: where the tests find nothing, a server reads a catalog of the old cluster, and of the new one
/// that which the same bootstrap role starts with.
pub fn passing_catalogs_are_fresh()
    ensures { (s : FsState) (job : Job) (readings : Readings) → FindsNothing s job readings → AreFresh readings }
{}

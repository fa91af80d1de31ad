// Transferring the files of a plan.
ghost use Rattle.std.specs.Prelude.{◌≡◌, List};
ghost use Rattle.fs_model.specs.Trail.{Trail, Goes};
ghost use Rattle.control_file.specs.declared.job.Job.{Job};
ghost use Rattle.crash_safety.specs.Sound.{Whole, Moved};
ghost use Rattle.transfer_plan.specs.declared.plan.PlanItem.{PlanItem};
ghost use Rattle.transfer_plan.specs.Carriable.{targets};
ghost use Rattle.copy_transfer.specs.CopiedFiles.{CopiesTo};
ghost use Rattle.link_transfer.specs.LinkedFiles.{LinksItems};
ghost use Rattle.phase_facts.specs.Plans.{IsPlanIn};
ghost use Rattle.phase_facts.specs.Held.{Held};

/// Copying the files of a plan keeps the fact of the phases before the rename, and linking them keeps it after the rename is
/// on the disk, whatever they answer.
pub fn transfer_keeps_held()
    ensures copies { (job : Job) (items : List PlanItem) (opening a b : Trail) → IsPlanIn job opening.present items → Held job Whole opening a → Goes (CopiesTo (targets items) a.present) a b → Held job Whole opening b }
    ensures links { (job : Job) (items : List PlanItem) (opening a b : Trail) → IsPlanIn job opening.present items → Held job Moved opening a → Goes (LinksItems items) a b → Held job Moved opening b }
{}

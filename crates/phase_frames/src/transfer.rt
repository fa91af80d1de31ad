// Transferring the files of a plan.
ghost use Rattle.std.specs.Prelude.{List};
ghost use Rattle.fs_model.specs.Trail.{Trail, Goes, Since};
ghost use Rattle.control_file.specs.declared.job.Job.{Job};
ghost use Rattle.transfer_plan.specs.declared.plan.PlanItem.{PlanItem};
ghost use Rattle.transfer_plan.specs.Carriable.{targets};
ghost use Rattle.copy_transfer.specs.CopiedFiles.{CopiesTo};
ghost use Rattle.link_transfer.specs.LinkedFiles.{LinksItems};
ghost use Rattle.phase_facts.specs.CanUpgrade.{CanBegin};
ghost use Rattle.phase_facts.specs.Plans.{IsPlanIn};
ghost use Rattle.phase_frames.specs.Framed.{IsFramed};

/// Copying the files of a plan leaves all but new places as at the start, or after the rename, and so does linking them,
/// whatever they answer.
pub fn transfer_keeps_frame()
    ensures copies { (job : Job) (items : List PlanItem) (opening a b : Trail) → CanBegin job opening.present → IsPlanIn job opening.present items → IsFramed job opening.present a.present → Goes (CopiesTo (targets items) a.present) a b → Since (IsFramed job opening.present) a b }
    ensures links { (job : Job) (items : List PlanItem) (opening a b : Trail) → CanBegin job opening.present → IsPlanIn job opening.present items → IsFramed job opening.present a.present → Goes (LinksItems items) a b → Since (IsFramed job opening.present) a b }
{}

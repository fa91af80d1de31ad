// Directories.
ghost use Rattle.std.specs.Prelude.{◌≡◌, ℕ, List, Some};
ghost use Rattle.std.specs.FinMap.{get};
ghost use Rattle.fs_model.specs.declared.node.Node.TheVariants.{Dir};
ghost use Rattle.fs_model.specs.Names.{Path};
ghost use Rattle.fs_model.specs.Trail.{Trail, Goes, Since};
ghost use Rattle.crash_safety.specs.Calling.{Rewrites};
ghost use Rattle.new_names.specs.declared.names.NewName.{NewName};
ghost use Rattle.new_names.specs.Frame.{MakesListed};
ghost use Rattle.status_transfer.specs.Carried.{CarriesInto};
ghost use Rattle.transfer_plan.specs.declared.plan.PlanItem.{PlanItem};
ghost use Rattle.copy_transfer.specs.CopiedFiles.{CopiesTo};
ghost use Rattle.disable_old.specs.Renamed.{Disables};
ghost use Rattle.link_transfer.specs.LinkedFiles.{LinksItems};
ghost use Rattle.phase_facts.specs.Held.{KeepsDirectories};

/// A directory stays over every run that removes none, whatever its calls answer: files alone are unlinked and renamed, and
/// no name is made over another. So it is with the calls of each step.
pub fn directories_stay()
    ensures runs { (a b : Trail) (dir : Path) → Goes KeepsDirectories a b → get a.present.names dir ≡ Some Dir → Since (λ s. get s.names dir ≡ Some Dir) a b }
    ensures replay { (listed : List NewName) (a b : Trail) → Goes (MakesListed listed a.present) a b → Goes KeepsDirectories a b }
    ensures status { (dirs : List Path) (a b : Trail) → Goes (CarriesInto dirs a.present) a b → Goes KeepsDirectories a b }
    ensures counters { (at : Path) (a b : Trail) → Goes (Rewrites at) a b → Goes KeepsDirectories a b }
    ensures disabling { (control renamed dir : Path) (a b : Trail) → Goes (Disables control renamed dir) a b → Goes KeepsDirectories a b }
    ensures copies { (paths : List Path) (a b : Trail) → Goes (CopiesTo paths a.present) a b → Goes KeepsDirectories a b }
    ensures links { (items : List PlanItem) (a b : Trail) → Goes (LinksItems items) a b → Goes KeepsDirectories a b }
{}

// The laws of the mark: one more file, which says that all else is on the disk.
ghost use Rattle.std.specs.Prelude.{◌≡◌, ℕ, Some, None};
ghost use Rattle.std.specs.FinMap.{get};
ghost use Rattle.fs_model.specs.declared.node.Node.TheVariants.{File};
ghost use Rattle.fs_model.specs.Names.{Path, parent};
ghost use Rattle.fs_model.specs.State.{FsState};
ghost use Rattle.fs_model.specs.Calls.{Creates, SyncsFile, SyncsDir};
ghost use Rattle.fs_model.specs.Crash.{Image, Settled};
ghost use Rattle.fs_model.specs.WellFormed.{WellFormed};
ghost use Rattle.fs_model.specs.Trail.{Trail, Steps, Goes, Since};
ghost use Rattle.crash_safety.specs.Marked.{AllButMark, SameButMark, Marks};

/// From a state of which all is on the disk, a run that makes the mark leaves all else as it is, and every crash does.
pub fn mark_leaves_all()
    ensures begins { (mark : Path) (s : FsState) → Settled s → AllButMark mark s s }
    ensures runs { (mark : Path) (s : FsState) → WellFormed s → (a b : Trail) → AllButMark mark s a.present → Goes (Marks mark) a b → Since (AllButMark mark s) a b }
    ensures images { (mark : Path) (s t x : FsState) → WellFormed s → get s.names mark ≡ None → AllButMark mark s t → Image t x → SameButMark mark s x }
{}

/// A mark that is made and put on the disk, with its directory, stands, and all is on the disk.
pub fn mark_is_made()
    ensures settled { (mark : Path) (a b c d : Trail) → Steps (Creates mark) None a b → Steps (SyncsFile mark) None b c → Steps (SyncsDir (parent mark)) None c d → Settled a.present → WellFormed a.present → Settled d.present }
    ensures stands { (mark : Path) (a b c d : Trail) → Steps (Creates mark) None a b → Steps (SyncsFile mark) None b c → Steps (SyncsDir (parent mark)) None c d → (inode : ℕ) × (get d.present.names mark ≡ Some (File inode)) }
{}

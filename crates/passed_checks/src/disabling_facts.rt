// What follows for disabling the old cluster.
ghost use Rattle.std.specs.Prelude.{◌≡◌, ℕ, Some, None};
ghost use Rattle.std.specs.FinMap.{get};
ghost use Rattle.fs_model.specs.declared.node.Node.TheVariants.{File};
ghost use Rattle.fs_model.specs.Names.{Path};
ghost use Rattle.fs_model.specs.State.{FsState};
ghost use Rattle.fs_model.specs.Calls.{Renames, refusal};
ghost use Rattle.fs_model.specs.WellFormed.{WellFormed};
ghost use Rattle.crash_safety.specs.Places.{control_at, disabled_at};

/// Where the control file is a file, and its name in a disabled cluster is free, it can be renamed.
pub fn disabling_law()
    ensures { (s : FsState) → WellFormed s → (old : Path) (inode : ℕ) → get s.names (control_at old) ≡ Some (File inode) → get s.names (disabled_at old) ≡ None → refusal s (Renames (control_at old) (disabled_at old)) ≡ None }
{}

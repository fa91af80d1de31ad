// What follows where the checks of directories find nothing.
ghost use Rattle.std.specs.Prelude.{◌≡◌, ◌≢◌, ◌++◌, ◌∷◌, [], codes, List, ℕ, None};
ghost use Rattle.std.specs.FinMap.{get};
ghost use Rattle.fs_model.specs.Names.{Path};
ghost use Rattle.fs_model.specs.State.{Names, FsState};
ghost use Rattle.status_transfer.specs.Status.{HoldsStatus};
ghost use Rattle.catalog_server.specs.Fresh.{IsUnused};
ghost use Rattle.tree_checks.specs.Findings.{IsLeast};
ghost use Rattle.tree_checks.specs.MissingDirs.{IsMissingDir};
ghost use Rattle.tree_checks.specs.NewDirs.{IsUsed, new_dir};
ghost use Rattle.tree_checks.specs.declared.new_dirs.NewDir.TheVariants.{Profile};
ghost use Rattle.fs_tools.specs.Children.{child_of};

/// Where no directory is missing, those of status files stand in both clusters and hold files alone.
pub fn missing_dirs_law()
    ensures old { (names : Names) (old new : Path) → IsMissingDir names old new None → HoldsStatus names old }
    ensures new { (names : Names) (old new : Path) → IsMissingDir names old new None → HoldsStatus names new }
{}

/// Where besides nothing is in the way in the new cluster, it was never used, and its profile has the catalog text alone.
pub fn unused_cluster_law()
    ensures unused { (s : FsState) (old new : Path) → IsMissingDir s.names old new None → IsLeast (IsUsed s.names new) None → IsUnused new s }
    ensures profile { (names : Names) (new : Path) → IsLeast (IsUsed names new) None → (name : List ℕ) → name ≢ codes "catalog.sql" → get names (child_of (new_dir new Profile) name) ≡ None }
{}

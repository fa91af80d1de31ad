// What follows where the check of tablespaces' directories finds nothing.
ghost use Rattle.std.specs.Prelude.{None};
ghost use Rattle.fs_model.specs.Names.{Path, IsUnder};
ghost use Rattle.fs_model.specs.State.{FsState};
ghost use Rattle.control_file.specs.Version.{dir_name_of};
ghost use Rattle.control_file.specs.declared.releases.Release.TheVariants.{V15, V16};
ghost use Rattle.catalog.specs.Cluster.{Cluster};
ghost use Rattle.crash_safety.specs.Frame.{IsInside, IsOutside};
ghost use Rattle.crash_safety.specs.Places.{locations, tops_at};
ghost use Rattle.catalog_server.specs.Fresh.{AreLocationsReady};
ghost use Rattle.file_checks.specs.Tablespaces.{IsTablespaceDir};

/// Where it finds nothing, each location is ready for the new cluster, and where neither cluster is in the other, no place of
/// the one is a place of the other.
pub fn tablespaces_law()
    ensures ready { (s : FsState) (old new : Path) (c : Cluster) → IsTablespaceDir s old new c None → AreLocationsReady new V16 c s }
    ensures apart { (s : FsState) (old new : Path) (c : Cluster) → IsTablespaceDir s old new c None → (IsUnder old new → ⊥) → (IsUnder new old → ⊥) → (path : Path) → IsInside (tops_at (locations s.names old) (dir_name_of V15) old) path → IsOutside (tops_at (locations s.names old) (dir_name_of V16) new) path }
{}

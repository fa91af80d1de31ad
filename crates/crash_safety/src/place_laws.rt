// The laws of an upgrade's places.
ghost use Rattle.std.specs.Prelude.{◌≡◌, ◌⊎◌, ◌++◌, ◌∷◌, [], ℕ, false, List, map};
ghost use Rattle.fs_model.specs.Names.{Path, IsUnder, parent};
ghost use Rattle.fs_model.specs.State.{Names};
ghost use Rattle.fs_model.specs.Calls.{is_root};
ghost use Rattle.crash_safety.specs.Synced.{IsHeld};
ghost use Rattle.crash_safety.specs.Frame.{IsInside, IsOutside};
ghost use Rattle.crash_safety.specs.Places.{locations, tops_at, IsAtLocation, StandApart};

/// The places of a cluster are the paths under its root and, for each symbolic link to a location in the old cluster's
/// `pg_tblspc`, those under the release's directory there.
pub fn places_are_known()
    ensures inside { (names : Names) (old top : Path) (release : List ℕ) (path : Path) → IsInside (tops_at (locations names old) release top) path → IsUnder top path ⊎ IsAtLocation names old release path }
    ensures all { (names : Names) (old top : Path) (release : List ℕ) (path : Path) → IsUnder top path ⊎ IsAtLocation names old release path → IsInside (tops_at (locations names old) release top) path }
{}

/// Where no directory of one cluster is, or is below, one of the other, no place of the one is a place of the other.
pub fn places_stand_apart()
    ensures { (tops others : List Path) → StandApart tops others → (path : Path) → IsInside tops path → IsOutside others path }
{}

/// The directory that a place stands in, of a path below a root or at a location: below the root it is the root or below
/// it; at a location it is in the release's directory, or the location, which holds that.
pub fn places_are_held()
    ensures below { (top path : Path) (name : List ℕ) (rest : Path) → path ≡ top ++ name ∷ rest → IsUnder top (parent path) × (is_root path ≡ false) }
    ensures regions { (locations : List Path) (release : List ℕ) (top path : Path) → IsInside (map (λ location. location ++ release ∷ []) locations) path → IsHeld (tops_at locations release top) locations (parent path) × (is_root path ≡ false) }
{}

// The laws of what was carried: what the calls leave as it was, and how long what they made stays. Nothing is computed.
ghost use Rattle.std.specs.Prelude.{◌≡◌, ◌≢◌, ◌++◌, ◌∷◌, ℕ, true, false, List, None, is_some, codes};
ghost use Rattle.std.specs.FinMap.{get};
ghost use Rattle.fs_model.specs.Names.{Path, parent};
ghost use Rattle.fs_model.specs.State.{FsState};
ghost use Rattle.fs_model.specs.Calls.{is_root};
ghost use Rattle.fs_model.specs.Reading.{file_bytes};
ghost use Rattle.fs_model.specs.WellFormed.{WellFormed};
ghost use Rattle.fs_model.specs.Trail.{Trail, Goes, Since};
ghost use Rattle.crash_safety.specs.Frame.{IsInside, IsOutside, Within};
ghost use Rattle.crash_safety.specs.Calling.{MakesWithin};
ghost use Rattle.crash_safety.specs.Lacks.{Lacks};
ghost use Rattle.crash_safety.specs.Tracked.{Tracked};
ghost use Rattle.crash_safety.specs.Synced.{IsHeld, NeedsOnly};
ghost use Rattle.crash_safety.specs.Places.{control_at};
ghost use Rattle.fs_tools.specs.Children.{child_of};
ghost use Rattle.status_transfer.specs.Carried.{IsInOne, CarriesInto, ChangesOnlyIn, SharesNone};
ghost use Rattle.status_transfer.specs.Counted.{KeepsAllBut};
ghost use Rattle.status_transfer.specs.Status.{commit_log_dir, offsets_dir, members_dir, status_dirs, CarriesStatus};

/// A run that carries files into directories keeps within them, gives no file a further name, removes no directory and
/// writes to new files alone; so the laws of such runs hold of it. Each state on the way has all else as it was, shares no
/// file, and lacks each name outside that the first one lacks.
pub fn carrying_stays_within()
    ensures makes { (dirs : List Path) (a b : Trail) → Goes (CarriesInto dirs a.present) a b → Goes (MakesWithin dirs a.present) a b }
    ensures frame { (dirs : List Path) (a b : Trail) → Goes (CarriesInto dirs a.present) a b → Since (ChangesOnlyIn dirs a.present) a b }
    ensures shares_none { (dirs : List Path) (a b : Trail) → Goes (CarriesInto dirs a.present) a b → Since (SharesNone a.present) a b }
    ensures lacks { (dirs : List Path) (path : Path) → IsOutside dirs path → (a b : Trail) → Lacks path a.present → Goes (CarriesInto dirs a.present) a b → Since (Lacks path) a b }
    ensures inside { (dirs : List Path) (path : Path) → IsInOne dirs path → IsInside dirs path }
{}

/// It leaves each file that isn't in the directories, with its bytes.
pub fn carrying_leaves_files()
    ensures { (dirs : List Path) (a s : FsState) → WellFormed a → ChangesOnlyIn dirs a s → (path : Path) → (IsInOne dirs path → ⊥) → file_bytes s path ≡ file_bytes a path }
{}

/// The directories of transaction status are below the cluster's root, and nothing is inside them that is below it by
/// another name.
pub fn status_dirs_are_below()
    ensures held { (tops holders : List Path) (root : Path) → IsInside tops root → (path : Path) → IsInside (status_dirs root) path → IsInside tops path × IsHeld tops holders (parent path) × (is_root path ≡ false) }
    ensures outside { (root : Path) (name : List ℕ) (rest : Path) → name ≢ codes "pg_xact" → name ≢ codes "pg_multixact" → IsOutside (status_dirs root) (root ++ name ∷ rest) }
    ensures control { (root : Path) → IsOutside (status_dirs root) (control_at root) }
{}

/// What needs a sync after a run that carries the status of transactions is inside the new cluster.
pub fn carrying_keeps_needs()
    ensures { (tops holders : List Path) (root : Path) → IsInside tops root → (a b : Trail) → Tracked a.present → NeedsOnly tops holders (control_at root) a.present → Goes (CarriesInto (status_dirs root) a.present) a b → Since (λ s. Within (status_dirs root) a.present s × Tracked s × NeedsOnly tops holders (control_at root) s) a b }
{}

/// What was carried since s was carried since each earlier state whose files of these directories, and whose inodes, s
/// has.
pub fn carried_since_before()
    ensures { (a s t : FsState) (old new : Path) → WellFormed a → ((path : Path) → IsInOne (status_dirs old) path → get s.names path ≡ get a.names path) → ((inode : ℕ) → is_some (get a.bytes inode) ≡ true → get s.bytes inode ≡ get a.bytes inode) → CarriesStatus s old new t → CarriesStatus a old new t }
{}

/// What was carried stays so in each state that has the same names in these directories, and the same bytes in each inode
/// that is new since.
pub fn carried_stays_carried()
    ensures { (s m t : FsState) (old new : Path) → ((path : Path) → IsInOne (status_dirs new) path → get t.names path ≡ get m.names path) → ((inode : ℕ) → get s.bytes inode ≡ None → is_some (get m.bytes inode) ≡ true → get t.bytes inode ≡ get m.bytes inode) → CarriesStatus s old new m → CarriesStatus s old new t }
{}

/// It stays so while the counters are set, in a control file that stood before.
pub fn carried_stays_under_counters()
    ensures { (s m t : FsState) (old new at : Path) → WellFormed s → ChangesOnlyIn (status_dirs new) s m → (IsInOne (status_dirs new) at → ⊥) → KeepsAllBut at m t → CarriesStatus s old new m → CarriesStatus s old new t }
{}

/// The new cluster's files of transaction status have the bytes of the old one's: each name has a file in both, or in
/// neither.
pub fn status_is_equal()
    ensures commit_log { (s t : FsState) (old new : Path) → CarriesStatus s old new t → (name : List ℕ) → file_bytes t (child_of (commit_log_dir new) name) ≡ file_bytes s (child_of (commit_log_dir old) name) }
    ensures offsets { (s t : FsState) (old new : Path) → CarriesStatus s old new t → (name : List ℕ) → file_bytes t (child_of (offsets_dir new) name) ≡ file_bytes s (child_of (offsets_dir old) name) }
    ensures members { (s t : FsState) (old new : Path) → CarriesStatus s old new t → (name : List ℕ) → file_bytes t (child_of (members_dir new) name) ≡ file_bytes s (child_of (members_dir old) name) }
{}

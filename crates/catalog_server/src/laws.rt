// The laws of a server's reading and of its replays. Nothing is computed: each contract is a fact about definitions.
ghost use Rattle.std.specs.Prelude.{◌≡◌, ℕ, List, Result};
ghost use Rattle.std.specs.List.{Contains};
ghost use Rattle.fs_model.specs.Names.{Path};
ghost use Rattle.fs_model.specs.State.{FsState};
ghost use Rattle.fs_model.specs.Calls.{Call};
ghost use Rattle.fs_model.specs.Trail.{Trail, Goes, Since};
ghost use Rattle.crash_safety.specs.Frame.{IsInside};
ghost use Rattle.crash_safety.specs.Calling.{MakesWithin};
ghost use Rattle.crash_safety.specs.Upgrade.{Upgrade, IsReady};
ghost use Rattle.crash_safety.specs.Sound.{Stage, Moving, Sound};
ghost use Rattle.control_file.specs.declared.releases.Release.{Release};
ghost use Rattle.catalog.specs.Cluster.{Cluster, DatabaseObjects, started};
ghost use Rattle.catalog.specs.Valid.{IsValid};
ghost use Rattle.dump_grammar.specs.declared.error.TextError.{TextError};
ghost use Rattle.fs_model.specs.WellFormed.{WellFormed};
ghost use Rattle.new_names.specs.Frame.{MakesListed};
ghost use Rattle.new_names.specs.Room.{HasRoomFor};
ghost use Rattle.catalog_server.specs.Profile.{profile_of};
ghost use Rattle.catalog_server.specs.SameProfile.{LeavesProfile};
ghost use Rattle.catalog_server.specs.ReplayNames.{new_names, listed_names};
ghost use Rattle.catalog_server.specs.MainFiles.{listed_files, main_files};
ghost use Rattle.catalog_server.specs.Needed.{HasNeeded, AreFree};
ghost use Rattle.catalog_server.specs.Fresh.{IsUnused, AreLocationsReady};
ghost use Rattle.catalog_server.specs.ServerFrame.{ServerFrame, ReplayCalls};
ghost use Rattle.catalog_server.specs.Within.{replay_tops};

/// What leaves the names, nodes and bytes of a cluster's profile, the mark `done` apart, leaves what every server reads.
pub fn reading_rests_on_profile()
    ensures { (root : Path) (s t : FsState) → LeavesProfile root s t → profile_of t root ≡ profile_of s root }
{}

/// Every state of a replay has the frame, though it may have been cut short by a failure at any call.
pub fn replay_has_frame()
    ensures { (root : Path) (release : Release) (reading : Result Cluster TextError) (text : List ℕ) (a b : Trail) → Goes (ReplayCalls root release reading text a.present) a b → Since (ServerFrame root release reading text a.present) a b }
{}

/// A replay keeps within three directories of its cluster and each tablespace's own, and gives no file a further name.
pub fn replay_stays_within()
    ensures { (root : Path) (release : Release) (before after : Cluster) (start s : FsState) (call : Call) → MakesListed (listed_names root release before after) start s call → MakesWithin (replay_tops root release after) start s call }
{}

/// Where these are new places of an upgrade, a replay keeps its crash invariant in every state, at each stage but while
/// the control file's rename waits.
pub fn replay_keeps_sound()
    ensures { (u : Upgrade) → IsReady u → (stage : Stage) → (stage ≡ Moving → ⊥) → (root : Path) (release : Release) (before after : Cluster) → ((path : Path) → IsInside (replay_tops root release after) path → IsInside u.new_tops path) → (a b : Trail) → Sound u stage a.present → Goes (MakesListed (listed_names root release before after) a.present) a b → Since (Sound u stage) a b }
{}

/// There is room for a replay's names, so that no call of it is refused, where the directories stand that it needs and no
/// name of it is in the way.
pub fn needed_directories_give_room()
    ensures { (root : Path) (release : Release) (before after : Cluster) (s : FsState) → IsValid before → HasNeeded root release before after s → AreFree s (new_names root release before after) → HasRoomFor s (new_names root release before after) }
{}

/// A new cluster that was never used, with locations that are ready, has room for all that a valid catalog makes of the one
/// that it starts with. The facts are those that the checks of an upgrade give.
pub fn unused_clusters_have_room()
    ensures { (root : Path) (release : Release) (c : Cluster) (s : FsState) → WellFormed s → IsValid c → IsUnused root s → AreLocationsReady root release c s → HasRoomFor s (new_names root release (started c.bootstrap) c) }
{}

/// The main files that a replay lists for the relations of a database are the first segments that those find who read, copy or
/// link the files of relations.
pub fn listed_files_are_main_files()
    ensures { (root : Path) (release : Release) (c : Cluster) (d : DatabaseObjects) → IsValid c → Contains c.databases d → listed_files root release c.tablespaces d ≡ main_files (record { root = root; release = release; tablespaces = c.tablespaces }) d }
{}

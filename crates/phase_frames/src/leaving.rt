// What the frame says of the old cluster, and of what is in neither.
ghost use Rattle.std.specs.Prelude.{◌≡◌, ◌≢◌, ℕ, false, Some};
ghost use Rattle.std.specs.FinMap.{get};
ghost use Rattle.fs_model.specs.declared.node.Node.TheVariants.{File};
ghost use Rattle.fs_model.specs.Names.{Path};
ghost use Rattle.fs_model.specs.State.{FsState};
ghost use Rattle.control_file.specs.declared.job.Job.{Job};
ghost use Rattle.crash_safety.specs.Crashes.{OldKept, AsBefore};
ghost use Rattle.crash_safety.specs.Frame.{IsOutside};
ghost use Rattle.crash_safety.specs.Places.{control_at};
ghost use Rattle.phase_facts.specs.Places.{disables, upgrade_in};
ghost use Rattle.phase_facts.specs.CanUpgrade.{CanBegin};
ghost use Rattle.phase_frames.specs.Framed.{IsFramed};

/// The old cluster and the names of neither are kept, but for the rename, since no file of the old cluster is the new control
/// file. An upgrade that copies leaves all names but those of new places, and the old cluster as it was.
pub fn frame_keeps_old()
    ensures kept { (job : Job) (start s : FsState) → CanBegin job start → IsFramed job start s → OldKept (upgrade_in job start) s }
    ensures names { (job : Job) (start s : FsState) → IsFramed job start s → disables job.mode ≡ false → (path : Path) → IsOutside (upgrade_in job start).new_tops path → get s.names path ≡ get start.names path }
    ensures whole { (job : Job) (start s : FsState) → CanBegin job start → IsFramed job start s → disables job.mode ≡ false → AsBefore start (upgrade_in job start).old_tops s }
{}

/// What is in neither cluster keeps its names, and each file of the start but the new control file has its bytes, wherever it
/// stands. A further name of that file outside both clusters shows the counters that are set.
pub fn frame_keeps_elsewhere()
    ensures names { (job : Job) (start s : FsState) → IsFramed job start s → (path : Path) → IsOutside (upgrade_in job start).old_tops path → IsOutside (upgrade_in job start).new_tops path → get s.names path ≡ get start.names path }
    ensures files { (job : Job) (start s : FsState) → CanBegin job start → IsFramed job start s → (path : Path) (inode : ℕ) → get start.names path ≡ Some (File inode) → get start.names (control_at job.new) ≢ Some (File inode) → get s.bytes inode ≡ get start.bytes inode }
{}

// The counters of the new cluster's control file.
ghost use Rattle.std.specs.Prelude.{◌≡◌, true, None, OnOk};
ghost use Rattle.fs_model.specs.Calls.{WritesAt, refusal};
ghost use Rattle.fs_model.specs.Trail.{Goes, Since, DecidedBy, HasCause, OthersStay, error_of};
ghost use Rattle.crash_safety.specs.Calling.{Rewrites};
ghost use Rattle.crash_safety.specs.Upgrade.{Upgrade, IsReady};
ghost use Rattle.crash_safety.specs.Sound.{Stage, Sound, HasNoOldFile};
ghost use Rattle.status_transfer.specs.Counted.{CarriesCounters, SetsCounters, IsHeadOf, KeepsAllBut};

use control_file::{Counters, write_counters};
use fs_model::{Fs, FsError, Path};

/// Writes the counters into the record, and the record to the beginning of the control file whose record it is. After
/// a failure the file has any bytes. Takes no memory. (`copy_xact_xlog_xid` of `src/bin/pg_upgrade/pg_upgrade.c`.)
pub fn set_counters<F: Fs>(
    fs: &mut F,
    control: &Path,
    head: &mut [u8; 296],
    counters: &Counters,
) -> Result<(), FsError>
    ensures told { F.told fs.new ≡ F.told fs.old }
    ensures firm { F.firm fs.new ≡ F.firm fs.old }
    ensures head { CarriesCounters head.old counters.now head.new }
    ensures calls { F.told fs.old ≡ true → Goes (Rewrites control.now) (F.trail fs.old) (F.trail fs.new) }
    ensures frame { F.told fs.old ≡ true → Since (KeepsAllBut control.now (F.trail fs.old).present) (F.trail fs.old) (F.trail fs.new) }
    ensures sound { F.told fs.old ≡ true → (u : Upgrade) → IsReady u → (stage : Stage) → Sound u stage (F.trail fs.old).present → HasNoOldFile u (F.trail fs.old).present control.now → Since (Sound u stage) (F.trail fs.old) (F.trail fs.new) }
    ensures decided { F.told fs.old ≡ true → DecidedBy (refusal (F.trail fs.old).present (WritesAt control.now 0 head.new)) result }
    ensures unrefused { F.told fs.old ≡ true → IsHeadOf (F.trail fs.old).present control.now head.old → DecidedBy None result }
    ensures counted { F.told fs.old ≡ true → IsHeadOf (F.trail fs.old).present control.now head.old → OnOk result (SetsCounters (F.trail fs.old).present control.now counters.now (F.trail fs.new).present) }
    ensures cause { HasCause (F.firm fs.old) (F.counts fs.old) (F.counts fs.new) (error_of result) }
    ensures others { OthersStay (F.counts fs.old) (F.counts fs.new) (error_of result) }
{
    // It says that the state is well-formed.
    let _ = fs.moment();
    write_counters(head, counters);
    fs.write_at(control, 0, &head[..])
}

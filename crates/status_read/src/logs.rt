// What a cluster's status files say of transactions.
ghost use Rattle.std.specs.Prelude.{◌≡◌, ◌++◌, map as mapped, true, IfOk};
ghost use Rattle.std.specs.FinMap as map;
ghost use Rattle.fs_model.specs.Trail.{DecidedBy, error_of, unless_lack};
ghost use Rattle.fs_model.specs.Observed.{Observed, OnlyReads};
ghost use Rattle.xact_status.specs.Files.{SegmentFiles};
ghost use Rattle.cluster_meaning.specs.Status.{status_files, window_of};
ghost use Rattle.status_read.specs.Segments.{segments_refusal, status_refusal};
ghost use Rattle.status_read.specs.Logs.{HasLogs};

use crate::segments::segments_in;
use control_file::Counters;
use fs_model::{Fs, FsError, Path};
use multixact::updater;
use std::alloc::Global;
use visibility::Lookup;
use xact_status::{Known, Segments, Window, known_of};

/// What a cluster's status files and the counters of its control file tell of its transactions.
#[derive(Drop)]
pub struct Logs {
    /// The segments of `pg_xact`.
    pub commit_log: Segments,
    /// The segments of `pg_multixact/offsets`.
    pub offsets: Segments,
    /// The segments of `pg_multixact/members`.
    pub members: Segments,
    pub counters: Counters,
    /// The transaction ids whose status is kept.
    pub window: Window,
}

impl Lookup for Logs {
    ghost use Rattle.std.specs.FinMap as map;
    ghost use Rattle.xact_status.specs.Known.{fate_of};
    ghost use Rattle.multixact.specs.Update.{updater_of};

    ghost fates = { λ logs. fate_of (map.get logs.commit_log) logs.window };

    ghost updaters = { λ logs. updater_of (map.get logs.offsets) (map.get logs.members) logs.counters };

    fn known(&self, xid: u32) -> Known {
        known_of(&self.commit_log, &self.window, xid)
    }

    fn updater(&self, multi: u32) -> Option<Option<u32>> {
        updater(&self.offsets, &self.members, &self.counters, multi)
    }
}

// The transaction ids whose status is kept.
fn window_of(counters: &Counters) -> Window
    ensures { result ≡ window_of counters.now }
{
    Window {
        oldest: counters.oldest_xid,
        next: (counters.next_xid & 0xffff_ffff) as u32,
    }
}

// The segments of a directory that stands at these names below a cluster's data directory.
fn segments_below<F: Fs>(
    alloc: Global,
    fs: &mut F,
    root: &Path,
    names: &[&str],
) -> Result<Segments, FsError>
    ensures reads { OnlyReads (record { told = F.told fs.old; firm = F.firm fs.old; depth = F.depth fs.old; trail = F.trail fs.old; counts = F.counts fs.old })
        (record { told = F.told fs.new; firm = F.firm fs.new; depth = F.depth fs.new; trail = F.trail fs.new; counts = F.counts fs.new }) (unless_lack (error_of result)) }
    ensures decided { F.told fs.old ≡ true → DecidedBy (segments_refusal (F.trail fs.old).present (root.now ++ mapped (λ name. name.now) names.now)) result }
    ensures segments { F.told fs.old ≡ true → IfOk result (λ segments. ◌≡◌ {A = SegmentFiles} (map.get segments) (status_files (F.trail fs.old).present (root.now ++ mapped (λ name. name.now) names.now))) }
{
    let Ok(dir) = root.join(names) else {
        return Err(FsError::OutOfMemory);
    };
    segments_in(alloc, fs, &dir)
}

/// Reads the status files of the cluster that stands at a path: the directories `pg_xact`, `pg_multixact/offsets` and
/// `pg_multixact/members`, in this order (the manual's "Database File Layout").
/// Refuses: as `segments_in` does, for the first of them that is refused.
pub fn read_logs<F: Fs>(
    alloc: Global,
    fs: &mut F,
    root: &Path,
    counters: &Counters,
) -> Result<Logs, FsError>
    ensures reads { OnlyReads (record { told = F.told fs.old; firm = F.firm fs.old; depth = F.depth fs.old; trail = F.trail fs.old; counts = F.counts fs.old })
        (record { told = F.told fs.new; firm = F.firm fs.new; depth = F.depth fs.new; trail = F.trail fs.new; counts = F.counts fs.new }) (unless_lack (error_of result)) }
    ensures decided { F.told fs.old ≡ true → DecidedBy (status_refusal (F.trail fs.old).present root.now) result }
    ensures logs { F.told fs.old ≡ true → IfOk result (HasLogs (F.trail fs.old).present root.now counters.now) }
{
    let commit_log = match segments_below(alloc, fs, root, &["pg_xact"]) {
        Ok(segments) => segments,
        Err(error) => return Err(error),
    };
    let offsets = match segments_below(alloc, fs, root, &["pg_multixact", "offsets"]) {
        Ok(segments) => segments,
        Err(error) => return Err(error),
    };
    let members = match segments_below(alloc, fs, root, &["pg_multixact", "members"]) {
        Ok(segments) => segments,
        Err(error) => return Err(error),
    };
    Ok(Logs {
        commit_log,
        offsets,
        members,
        counters: *counters,
        window: window_of(counters),
    })
}

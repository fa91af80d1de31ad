ghost use Rattle.std.specs.Prelude.{◌≡◌, ◌≤◌, ◌↔◌, ◌⊎◌, None, false};
ghost use Rattle.std.specs.FinMap as map;
ghost use Rattle.xact_status.specs.Known.{fate_of};
ghost use Rattle.xact_status.specs.Status.{status_at};
ghost use Rattle.xact_status.specs.Window.{is_within};

use crate::layout::FIRST_NORMAL_XID;
use crate::segments::Segments;
use crate::status::{Status, status_in};
use crate::window::Window;

/// What is known of a transaction in a cluster.
#[derive(Clone, Copy, Debug, PartialEq, Eq)]
pub enum Known {
    /// It committed.
    Committed,
    /// It aborted.
    Aborted,
    /// It neither committed nor aborted.
    Running,
    /// The cluster doesn't say.
    Unknown,
}

/// What the segments of `pg_xact` and the window of ids say of a transaction (`TransactionIdDidCommit` and
/// `TransactionIdDidAbort` in `src/backend/access/transam/transam.c`). Id 0 is that of no transaction and counts as
/// aborted, 1 and 2 are always committed.
pub fn known_of(files: &Segments, window: &Window, xid: u32) -> Known
    ensures known { result ≡ fate_of (map.get files.now) window.now xid }
    ensures unknown { (result ≡ Known.Unknown) ↔ ((FIRST_NORMAL_XID ≤ xid)
        × ((is_within window.now xid ≡ false) ⊎ (status_at (map.get files.now) xid ≡ None))) }
{
    if xid == 0 {
        return Known::Aborted;
    }
    if xid < FIRST_NORMAL_XID {
        return Known::Committed;
    }
    if !window.contains(xid) {
        return Known::Unknown;
    }
    match status_in(files, xid) {
        Some(Status::Committed) => Known::Committed,
        Some(Status::Aborted) => Known::Aborted,
        Some(_) => Known::Running,
        None => Known::Unknown,
    }
}

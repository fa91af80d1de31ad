ghost use Rattle.std.specs.Prelude.{◌≡◌, ◌≤◌, ◌↔◌, length, IsNone, MatchOption, ⊤};
ghost use Rattle.std.specs.FinMap as map;
ghost use Rattle.xact_status.specs.Place.{status_place};
ghost use Rattle.xact_status.specs.Status.{status_at, status_of};

use crate::place::place_of;
use crate::segments::Segments;

/// What `pg_xact` says of a transaction (`TRANSACTION_STATUS_IN_PROGRESS` and its kin in `src/include/access/clog.h`).
#[derive(Clone, Copy, Debug, PartialEq, Eq)]
pub enum Status {
    /// Neither committed nor aborted.
    InProgress,
    /// Committed.
    Committed,
    /// Aborted.
    Aborted,
    /// A subtransaction that committed, whose parent had neither committed nor aborted.
    SubCommitted,
}

/// The status of a transaction in the segments of `pg_xact`. None where the segment is absent or ends before the byte.
pub fn status_in(files: &Segments, xid: u32) -> Option<Status>
    ensures status { result ≡ status_at (map.get files.now) xid }
    ensures absent { IsNone result ↔ MatchOption (map.get files.now (status_place xid).segment) ⊤
        (λ bytes. length bytes ≤ (status_place xid).byte) }
{
    let place = place_of(xid);
    let byte = files.byte_at(place.segment, place.byte)?;
    Some(status_by(byte >> place.shift & 3))
}

// The status that two bits name.
fn status_by(bits: u8) -> Status
    requires { bits ≤ 3 }
    ensures { result ≡ status_of bits }
{
    match bits {
        0 => Status::InProgress,
        1 => Status::Committed,
        2 => Status::Aborted,
        _ => Status::SubCommitted,
    }
}

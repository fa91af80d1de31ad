ghost use Rattle.std.specs.Prelude.{◌≡◌};
ghost use Rattle.visibility.specs.Visible.{inserted_for, seen_despite, locks_only, kept_for, seen_by};

use crate::lookup::Lookup;
use crate::seen::Seen;
use crate::snapshot::Snapshot;
use heap_tuple::{
    EXCL_LOCK, Header, KEYSHR_LOCK, LOCK_ONLY, XMAX_COMMITTED, XMAX_INVALID, XMAX_IS_MULTI,
    XMIN_COMMITTED, XMIN_INVALID,
};
use xact_status::Known;

/// Whether a snapshot sees a tuple with this header (`HeapTupleSatisfiesMVCC` in
/// `src/backend/access/heap/heapam_visibility.c`, for a transaction that wrote nothing itself).
pub fn visible<L: Lookup>(header: &Header, snapshot: &Snapshot, look: &L) -> Seen
    ensures { result ≡ seen_by (L.fates look.now) (L.updaters look.now) header.now snapshot.now }
{
    match inserted(header, snapshot, look) {
        Seen::Yes => kept(header, snapshot, look),
        Seen::No => Seen::No,
        Seen::Unknown => Seen::Unknown,
    }
}

// Whether the tuple is inserted for the snapshot.
fn inserted<L: Lookup>(header: &Header, snapshot: &Snapshot, look: &L) -> Seen
    ensures { result ≡ inserted_for (L.fates look.now) header.now snapshot.now }
{
    let committed = header.infomask & XMIN_COMMITTED != 0;
    let invalid = header.infomask & XMIN_INVALID != 0;
    if committed && invalid {
        return Seen::Yes;
    }
    if invalid || snapshot.inside(header.xmin) {
        return Seen::No;
    }
    if committed {
        return Seen::Yes;
    }
    match look.known(header.xmin) {
        Known::Committed => Seen::Yes,
        Known::Aborted | Known::Running => Seen::No,
        Known::Unknown => Seen::Unknown,
    }
}

// Whether the snapshot still sees an inserted tuple.
fn kept<L: Lookup>(header: &Header, snapshot: &Snapshot, look: &L) -> Seen
    ensures { result ≡ kept_for (L.fates look.now) (L.updaters look.now) header.now snapshot.now }
{
    if header.infomask & XMAX_INVALID != 0 || is_locked_only(header.infomask) {
        return Seen::Yes;
    }
    if header.infomask & XMAX_IS_MULTI != 0 {
        return match look.updater(header.xmax) {
            Some(Some(xid)) => despite(xid, snapshot, look),
            Some(None) => Seen::Yes,
            None => Seen::Unknown,
        };
    }
    if header.infomask & XMAX_COMMITTED != 0 {
        return if snapshot.inside(header.xmax) {
            Seen::Yes
        } else {
            Seen::No
        };
    }
    despite(header.xmax, snapshot, look)
}

// Whether xmax is only a locker: the bit says so, or it is one exclusive locker as old releases wrote it
// (`HEAP_XMAX_IS_LOCKED_ONLY` in `src/include/access/htup_details.h`).
fn is_locked_only(infomask: u16) -> bool
    ensures { result ≡ locks_only infomask }
{
    infomask & LOCK_ONLY != 0 || infomask & (XMAX_IS_MULTI | KEYSHR_LOCK | EXCL_LOCK) == EXCL_LOCK
}

// Whether the snapshot sees an inserted tuple that this transaction deleted.
fn despite<L: Lookup>(xid: u32, snapshot: &Snapshot, look: &L) -> Seen
    ensures { result ≡ seen_despite (L.fates look.now) snapshot.now xid }
{
    if snapshot.inside(xid) {
        return Seen::Yes;
    }
    match look.known(xid) {
        Known::Committed => Seen::No,
        Known::Aborted | Known::Running => Seen::Yes,
        Known::Unknown => Seen::Unknown,
    }
}

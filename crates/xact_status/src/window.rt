ghost use Rattle.std.specs.Prelude.{◌≡◌};
ghost use Rattle.xact_status.specs.Window.{is_before};

use crate::layout::FIRST_NORMAL_XID;

/// Whether a transaction id comes before another: the ids from 3 on stand in a circle of 2^32, where each precedes the
/// 2^31 that follow it, and the others are compared as numbers (`TransactionIdPrecedes` in
/// `src/backend/access/transam/transam.c`; the manual's "Preventing Transaction ID Wraparound Failures").
pub fn precedes(a: u32, b: u32) -> bool
    ensures { result ≡ is_before a b }
{
    if a < FIRST_NORMAL_XID || b < FIRST_NORMAL_XID {
        a < b
    } else {
        a.wrapping_sub(b) >= 0x8000_0000
    }
}

/// The transaction ids whose status a cluster keeps.
#[derive(Clone, Copy, Debug, PartialEq, Eq)]
pub struct Window {
    /// The first of them.
    pub oldest: u32,
    /// The first behind them, which is given out next.
    pub next: u32,
}

impl Window {
    ghost use Rattle.std.specs.Prelude.{◌≡◌};
    ghost use Rattle.xact_status.specs.Window.{is_within};

    /// Whether the status of this id is kept.
    pub fn contains(&self, xid: u32) -> bool
        ensures { result ≡ is_within self.now xid }
    {
        xid >= FIRST_NORMAL_XID && !precedes(xid, self.oldest) && precedes(xid, self.next)
    }
}

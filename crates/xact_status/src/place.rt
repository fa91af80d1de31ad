ghost use Rattle.std.specs.Prelude.{◌≡◌};
ghost use Rattle.xact_status.specs.Place.{status_place};

use crate::layout::{BITS_PER_XACT, PAGE_SIZE, PAGES_PER_SEGMENT, XACTS_PER_BYTE, XACTS_PER_PAGE};

/// A place in segment files.
#[derive(Clone, Copy, Debug, PartialEq, Eq)]
pub struct Place {
    /// The number of the segment.
    pub segment: u32,
    /// The byte, from the start of the segment.
    pub byte: u32,
    /// How many bits of that byte stand below those of the place.
    pub shift: u8,
}

/// Where `pg_xact` has the status of a transaction: 2 bits for each id, the low bits of a byte first
/// (`TransactionIdToPage` and its kin in `src/backend/access/transam/clog.c`).
pub fn place_of(xid: u32) -> Place
    ensures { result ≡ status_place xid }
{
    let page = xid / XACTS_PER_PAGE;
    Place {
        segment: page / PAGES_PER_SEGMENT,
        byte: page % PAGES_PER_SEGMENT * PAGE_SIZE + xid % XACTS_PER_PAGE / XACTS_PER_BYTE,
        shift: (xid % XACTS_PER_BYTE * BITS_PER_XACT) as u8,
    }
}

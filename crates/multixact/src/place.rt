ghost use Rattle.std.specs.Prelude.{◌≡◌};
ghost use Rattle.multixact.specs.Place.{offset_place_of, member_place_of};

use crate::layout::{
    GROUP_SIZE, MEMBERS_PER_GROUP, MEMBERS_PER_PAGE, OFFSET_SIZE, OFFSETS_PER_PAGE, XID_SIZE,
};
use xact_status::{PAGE_SIZE, PAGES_PER_SEGMENT, Place};

/// Where `pg_multixact/members` has a member: places in bytes from the start of the segment.
#[derive(Clone, Copy, Debug, PartialEq, Eq)]
pub struct MemberPlace {
    /// The number of the segment.
    pub segment: u32,
    /// The byte of the member's status.
    pub flag: u32,
    /// The first of the four bytes of its transaction id.
    pub xid: u32,
}

/// Where `pg_multixact/offsets` has the number of a multixact's first member: four bytes for each id
/// (`MultiXactIdToOffsetPage` and its kin in `src/backend/access/transam/multixact.c`).
pub fn offset_place(multi: u32) -> Place
    ensures { result ≡ offset_place_of multi }
{
    let page = multi / OFFSETS_PER_PAGE;
    Place {
        segment: page / PAGES_PER_SEGMENT,
        byte: page % PAGES_PER_SEGMENT * PAGE_SIZE + multi % OFFSETS_PER_PAGE * OFFSET_SIZE,
        shift: 0,
    }
}

/// Where `pg_multixact/members` has a member, by its number (`MXOffsetToFlagsOffset` and its kin).
pub fn member_place(member: u32) -> MemberPlace
    ensures { result ≡ member_place_of member }
{
    let page = member / MEMBERS_PER_PAGE;
    let group = page % PAGES_PER_SEGMENT * PAGE_SIZE
        + member % MEMBERS_PER_PAGE / MEMBERS_PER_GROUP * GROUP_SIZE;
    let index = member % MEMBERS_PER_GROUP;
    MemberPlace {
        segment: page / PAGES_PER_SEGMENT,
        flag: group + index,
        xid: group + MEMBERS_PER_GROUP + index * XID_SIZE,
    }
}

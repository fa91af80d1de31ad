ghost use Rattle.std.specs.Prelude.{◌≡◌, ◌+◌};
ghost use Rattle.std.specs.FinMap as map;
ghost use Rattle.multixact.specs.Numbers as spec;
ghost use Rattle.multixact.specs.Member.{member_at};

use crate::layout::{NO_KEY_UPDATE_STATUS, UPDATE_STATUS};
use crate::place::member_place;
use byteorder::{ByteOrder, LittleEndian};
use xact_status::Segments;

/// A transaction of a multixact (`MultiXactMember` in `src/include/access/multixact.h`).
#[derive(Clone, Copy, Debug, PartialEq, Eq)]
pub struct Member {
    /// What it did with the row: 0 to 3 are locks, 4 is an update of no key column, 5 an update or a deletion.
    pub status: u8,
    /// Its transaction id. Where this is 0, the member is passed over.
    pub xid: u32,
}

impl Member {
    ghost use Rattle.std.specs.Prelude.{◌≡◌, ◌≢◌, ◌⊎◌, ◌↔◌, IsTrue};
    ghost use Rattle.multixact.specs.Update.{is_update};

    /// Whether it is an update, and isn't passed over.
    pub fn is_update(&self) -> bool
        ensures value { result ≡ is_update self.now }
        ensures counts { IsTrue result ↔ ((self.now.xid ≢ 0)
            × ((self.now.status ≡ 4) ⊎ (self.now.status ≡ 5))) }
    {
        self.xid != 0 && (self.status == NO_KEY_UPDATE_STATUS || self.status == UPDATE_STATUS)
    }
}

/// A member by its number, in the segments of `pg_multixact/members`. None where one of its five bytes is absent.
pub fn member_in(members: &Segments, member: u32) -> Option<Member>
    ensures { result ≡ member_at (map.get members.now) member }
{
    let place = member_place(member);
    let status = members.byte_at(place.segment, place.flag)?;
    let xid = number_at(members, place.segment, place.xid)?;
    Some(Member { status, xid })
}

// The number of four bytes at a place of a segment. None where one of them is absent.
pub(crate) fn number_at(files: &Segments, segment: u32, byte: u32) -> Option<u32>
    ensures { result ≡ spec.number_at (map.get files.now) segment byte }
{
    let bytes = files.bytes(segment)?;
    let start = byte as usize;
    let four = bytes.get(start..start + 4)?;
    Some(LittleEndian::read_u32(four))
}

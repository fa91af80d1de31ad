ghost use Rattle.std.specs.Prelude.{◌≡◌};
ghost use Rattle.std.specs.FinMap as map;
ghost use Rattle.multixact.specs.Update.{updater_among, updater_of};
ghost use Rattle.multixact.specs.Members.{members_from};

use crate::member::member_in;
use crate::offset::{contains, end_in, offset_in};
use control_file::Counters;
use xact_status::Segments;

/// The transaction among a multixact's members that updated or deleted the row, in the segments of
/// `pg_multixact/offsets` and `pg_multixact/members` (`MultiXactIdGetUpdateXid` in
/// `src/backend/access/heap/heapam.c`). The outer None says that the cluster doesn't tell: the id is out of its window,
/// or a byte that is needed is absent. The inner None says that no member is an update.
pub fn updater(
    offsets: &Segments,
    members: &Segments,
    counters: &Counters,
    multi: u32,
) -> Option<Option<u32>>
    ensures { result ≡ updater_of (map.get offsets.now) (map.get members.now) counters.now multi }
{
    if !contains(counters, multi) {
        return None;
    }
    let begin = offset_in(offsets, multi)?;
    let end = end_in(offsets, counters, multi)?;
    first_update(members, begin, end.wrapping_sub(begin))
}

// The first update among so many members from a number on, where each member up to it is there.
fn first_update(members: &Segments, begin: u32, count: u32) -> Option<Option<u32>>
    ensures { result ≡ updater_among (members_from (map.get members.now) begin count) }
{
    for index in 0..count {
        let member = member_in(members, begin.wrapping_add(index))?;
        if member.is_update() {
            return Some(Some(member.xid));
        }
    }
    Some(None)
}

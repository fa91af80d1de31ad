ghost use Rattle.std.specs.Prelude.{◌≡◌};
ghost use Rattle.std.specs.FinMap as map;
ghost use Rattle.multixact.specs.Window.{is_kept, following};
ghost use Rattle.multixact.specs.Offset.{offset_at, end_at};

use crate::member::number_at;
use crate::place::offset_place;
use control_file::Counters;
use xact_status::Segments;

// Half of the circle of 2^32 ids.
const HALF: u32 = 0x8000_0000;

// Whether the cluster keeps the members of this id.
pub(crate) fn contains(counters: &Counters, multi: u32) -> bool
    ensures { result ≡ is_kept counters.now multi }
{
    let ahead = counters.next_multi.wrapping_sub(multi);
    multi != 0 && multi.wrapping_sub(counters.oldest_multi) < HALF && ahead > 0 && ahead < HALF
}

// The id that is given out behind this one.
fn next_id(multi: u32) -> u32
    ensures { result ≡ following multi }
{
    if multi == u32::MAX { 1 } else { multi + 1 }
}

// The number of an id's first member, where its bytes are there.
pub(crate) fn offset_in(offsets: &Segments, multi: u32) -> Option<u32>
    ensures { result ≡ offset_at (map.get offsets.now) multi }
{
    let place = offset_place(multi);
    number_at(offsets, place.segment, place.byte)
}

// The number behind that of an id's last member, where it is there.
pub(crate) fn end_in(offsets: &Segments, counters: &Counters, multi: u32) -> Option<u32>
    ensures { result ≡ end_at (map.get offsets.now) counters.now multi }
{
    let next = next_id(multi);
    if next == counters.next_multi {
        Some(counters.next_multi_offset)
    } else {
        offset_in(offsets, next)
    }
}

//! Writing the counters of a control record.

ghost use Rattle.std.specs.Prelude.{◌≡◌, ℕ, ◌+◌, ◌≤◌, ◌%◌, ◌^◌, slice_index};
ghost use Rattle.control_file.specs.declared.releases.Release.{Release};
ghost use Rattle.control_file.specs.ControlRecord.{IsKept, IsRecordOf, KeepsOutside, control_of, counters_of, newest_commit_ts_xid, number_at, oldest_commit_ts_xid, right_crc};

use crate::crc::crc32c;
use crate::places;
use crate::records::Counters;
use byteorder::{ByteOrder, LittleEndian};

/// Writes the counters into the record, as `pg_resetwal` sets them for `pg_upgrade`: both transaction ids of commit
/// timestamps become the lower half of the next transaction id, and the CRC is made anew. No other byte changes.
pub fn write_counters(head: &mut [u8; 296], counters: &Counters)
    ensures counters { counters_of head.new ≡ counters.now }
    ensures oldest_commit_ts { oldest_commit_ts_xid head.new ≡ counters.now.next_xid % 2 ^ 32 }
    ensures newest_commit_ts { newest_commit_ts_xid head.new ≡ counters.now.next_xid % 2 ^ 32 }
    ensures crc { (control_of head.new).crc ≡ right_crc head.new }
    ensures kept { (i : ℕ) → IsKept i → slice_index head.new i ≡ slice_index head.old i }
    ensures control { control_of head.new
        ≡ record (control_of head.old) { counters = counters.now; crc = right_crc head.new } }
    ensures sound { (release : Release) → IsRecordOf head.old release → IsRecordOf head.new release }
{
    write_checkpoint(head, counters);
    write_commit_ts_xids(head, (counters.next_xid & 0xffff_ffff) as u32);
    let crc = crc32c(&head[..places::CHECKED_BYTES]);
    write_u32_at(head, places::CRC, crc);
}

/// Writes the counters into the copy of the last checkpoint.
fn write_checkpoint(head: &mut [u8; 296], counters: &Counters)
    ensures counters { counters_of head.new ≡ counters.now }
    ensures kept { KeepsOutside 64 100 head.old head.new }
{
    write_u64_at(head, places::NEXT_XID, counters.next_xid);
    write_u32_at(head, places::NEXT_OID, counters.next_oid);
    write_u32_at(head, places::NEXT_MULTI, counters.next_multi);
    write_u32_at(head, places::NEXT_MULTI_OFFSET, counters.next_multi_offset);
    write_u32_at(head, places::OLDEST_XID, counters.oldest_xid);
    write_u32_at(head, places::OLDEST_XID_DB, counters.oldest_xid_db);
    write_u32_at(head, places::OLDEST_MULTI, counters.oldest_multi);
    write_u32_at(head, places::OLDEST_MULTI_DB, counters.oldest_multi_db);
}

/// Writes one transaction id as the oldest and the newest that has a commit timestamp.
fn write_commit_ts_xids(head: &mut [u8; 296], xid: u32)
    ensures oldest { oldest_commit_ts_xid head.new ≡ xid }
    ensures newest { newest_commit_ts_xid head.new ≡ xid }
    ensures kept { KeepsOutside 112 120 head.old head.new }
{
    write_u32_at(head, places::OLDEST_COMMIT_TS_XID, xid);
    write_u32_at(head, places::NEWEST_COMMIT_TS_XID, xid);
}

/// Writes a number into the four bytes from a place on.
fn write_u32_at(head: &mut [u8; 296], place: usize, value: u32)
    requires { place + 4 ≤ 296 }
    ensures value { number_at place 4 head.new ≡ value }
    ensures kept { KeepsOutside place (place + 4) head.old head.new }
{
    LittleEndian::write_u32(&mut head[place..], value);
}

/// Writes a number into the eight bytes from a place on.
fn write_u64_at(head: &mut [u8; 296], place: usize, value: u64)
    requires { place + 8 ≤ 296 }
    ensures value { number_at place 8 head.new ≡ value }
    ensures kept { KeepsOutside place (place + 8) head.old head.new }
{
    LittleEndian::write_u64(&mut head[place..], value);
}

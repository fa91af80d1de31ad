// The files' bytes, by PostgreSQL's `pg_control.h`, `bufpage.h` and `htup_details.h`.
ghost use Rattle.std.specs.Prelude.{◌≤◌, ◌+◌};

use byteorder::{ByteOrder, LittleEndian};
use control_file::{Release, crc32c};

fn put_u16(bytes: &mut [u8; 8192], place: usize, value: u16)
    requires { place + 2 ≤ 8192 }
{
    LittleEndian::write_u16(&mut bytes[place..], value);
}

fn put_u32(bytes: &mut [u8; 8192], place: usize, value: u32)
    requires { place + 4 ≤ 8192 }
{
    LittleEndian::write_u32(&mut bytes[place..], value);
}

fn put_row(page: &mut [u8; 8192], place: usize, row: &[u8; 32])
    requires { place + 32 ≤ 8192 }
{
    page[place..place + 32].copy_from_slice(row);
}

/// Puts the checksum of a control file behind what it covers.
pub fn seal_control_file(bytes: &mut [u8; 8192]) {
    let crc = crc32c(&bytes[..288]);
    put_u32(bytes, 288, crc);
}

// The fields that both releases share.
fn put_shared(bytes: &mut [u8; 8192]) {
    put_u32(bytes, 8, 1300); // pg_control_version
    put_u32(bytes, 16, 1); // state, shut down
    put_u32(bytes, 76, 1); // nextMulti
    put_u32(bytes, 84, 600); // oldestXid
    put_u32(bytes, 88, 1); // oldestXidDB
    put_u32(bytes, 92, 1); // oldestMulti
    put_u32(bytes, 96, 1); // oldestMultiDB
    put_u32(bytes, 204, 8); // maxAlign
    put_u32(bytes, 216, 8192); // blcksz
    put_u32(bytes, 220, 131_072); // relseg_size
    put_u32(bytes, 224, 8192); // xlog_blcksz
    put_u32(bytes, 228, 16_777_216); // xlog_seg_size
    put_u32(bytes, 232, 64); // nameDataLen
    put_u32(bytes, 236, 32); // indexMaxKeys
    put_u32(bytes, 240, 1996); // toast_max_chunk_size
    put_u32(bytes, 244, 2048); // loblksize
    bytes[248] = 1; // float8ByVal
}

/// The control file of a cluster of the release that was shut down. The old one's next transaction is 800 and its next
/// object 30000; the new one's are 700 and 16384.
pub fn control_file(release: Release) -> [u8; 8192] {
    let mut bytes = [0u8; 8192];
    put_shared(&mut bytes);
    match release {
        Release::V15 => {
            put_u32(&mut bytes, 12, 202_209_061);
            put_u32(&mut bytes, 64, 800);
            put_u32(&mut bytes, 72, 30_000);
        }
        Release::V16 => {
            put_u32(&mut bytes, 12, 202_307_071);
            put_u32(&mut bytes, 64, 700);
            put_u32(&mut bytes, 72, 16_384);
        }
    }
    seal_control_file(&mut bytes);
    bytes
}

// A tuple of one column of 4 bytes, that transaction 700 inserted and nobody deleted, and what aligns it.
fn row(line: u16, value: u32) -> [u8; 32] {
    let mut bytes = [0u8; 32];
    LittleEndian::write_u32(&mut bytes[0..], 700); // xmin
    LittleEndian::write_u16(&mut bytes[16..], line); // ctid, in block 0
    LittleEndian::write_u16(&mut bytes[18..], 1); // infomask2, the number of columns
    LittleEndian::write_u16(&mut bytes[20..], 0x0800); // infomask, no xmax
    bytes[22] = 24; // hoff
    LittleEndian::write_u32(&mut bytes[24..], value);
    bytes
}

/// A page of a table with the one column `a int4` and the rows 1 and 2.
pub fn page_of_two_rows() -> [u8; 8192] {
    let mut page = [0u8; 8192];
    put_u16(&mut page, 12, 32); // lower
    put_u16(&mut page, 14, 8128); // upper
    put_u16(&mut page, 16, 8192); // special
    put_u16(&mut page, 18, 8196); // size and version
    put_u32(&mut page, 24, 0x0038_9fe0); // offset 8160, normal, length 28
    put_u32(&mut page, 28, 0x0038_9fc0); // offset 8128, normal, length 28
    put_row(&mut page, 8160, &row(1, 1));
    put_row(&mut page, 8128, &row(2, 2));
    page
}

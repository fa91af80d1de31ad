//! Reading the control record.

ghost use Rattle.std.specs.Prelude.{◌≡◌, ◌↔◌, ◌+◌, ◌≤◌, ℕ, List, length, take, IfErr, IfOk, OnOk};
ghost use Rattle.std.specs.Int.{cast_signed, w64};
ghost use Rattle.control_file.specs.ControlRecord.{IsCause, IsRecordOf, control_in, control_of, counters_of, number_at};

use crate::crc::crc32c;
use crate::places;
use crate::records::{Control, ControlError, Counters, RECORD_BYTES};
use crate::releases::Release;
use byteorder::{ByteOrder, LittleEndian};

/// The `PG_CONTROL_VERSION` of both releases.
const CONTROL_VERSION: u32 = 1300;

/// Reads the control record at the beginning of the bytes, which is to be one of the release. What is tested, in
/// this order: that the record is whole, its CRC, its control version, its catalog version.
#[tactic(auto, unfolding(crate::specs::ControlRecord::control_in, crate::specs::ControlRecord::control_of, crate::specs::ControlRecord::right_crc))]
pub fn read_control(bytes: &[u8], release: Release) -> Result<Control, ControlError>
    ensures value { result ≡ control_in bytes.now release }
    ensures fields { IfOk result (λ control. control ≡ control_of bytes.now) }
    ensures accepted { OnOk result (IsRecordOf bytes.now release) }
    ensures refused { IfErr result (λ cause. IsCause bytes.now release cause) }
{
    if bytes.len() < RECORD_BYTES {
        return Err(ControlError::Short);
    }
    let control = fields(bytes);
    if control.crc != crc32c(&bytes[..places::CHECKED_BYTES]) {
        return Err(ControlError::Crc);
    }
    if control.control_version != CONTROL_VERSION {
        return Err(ControlError::ControlVersion(control.control_version));
    }
    if control.catalog_version != release.catalog_version() {
        return Err(ControlError::CatalogVersion(control.catalog_version));
    }
    Ok(control)
}

/// A law, with nothing to run: bytes are read exactly where they begin with a sound record of the release, and else
/// refused by the first cause that holds.
pub fn control_in_is_exact()
    ensures accepted { (bytes : List ℕ) (release : Release)
        → (control_in bytes release ≡ Ok (control_of bytes)) ↔ IsRecordOf bytes release }
    ensures refused { (bytes : List ℕ) (release : Release) (cause : ControlError)
        → (control_in bytes release ≡ Err cause) ↔ IsCause bytes release cause }
{}

/// A law, with nothing to run: what a control file says rests on the first 296 of its bytes alone.
pub fn control_in_rests_on_its_record()
    ensures fields { (bytes : List ℕ) → control_of (take 296 bytes) ≡ control_of bytes }
    ensures answer { (bytes : List ℕ) (release : Release) → control_in (take 296 bytes) release ≡ control_in bytes release }
{}

/// The fields of a whole record.
#[tactic(auto, unfolding(crate::specs::ControlRecord::control_of))]
fn fields(bytes: &[u8]) -> Control
    requires { 296 ≤ length bytes.now }
    ensures { result ≡ control_of bytes.now }
{
    Control {
        system_identifier: u64_at(bytes, places::SYSTEM_IDENTIFIER),
        control_version: u32_at(bytes, places::PG_CONTROL_VERSION),
        catalog_version: u32_at(bytes, places::CATALOG_VERSION_NO),
        state: u32_at(bytes, places::STATE),
        time: i64_at(bytes, places::TIME),
        checkpoint: u64_at(bytes, places::CHECK_POINT),
        counters: checkpoint_counters(bytes),
        max_align: u32_at(bytes, places::MAX_ALIGN),
        blcksz: u32_at(bytes, places::BLCKSZ),
        relseg_size: u32_at(bytes, places::RELSEG_SIZE),
        xlog_blcksz: u32_at(bytes, places::XLOG_BLCKSZ),
        xlog_seg_size: u32_at(bytes, places::XLOG_SEG_SIZE),
        name_data_len: u32_at(bytes, places::NAME_DATA_LEN),
        index_max_keys: u32_at(bytes, places::INDEX_MAX_KEYS),
        toast_chunk: u32_at(bytes, places::TOAST_MAX_CHUNK_SIZE),
        loblksize: u32_at(bytes, places::LOBLKSIZE),
        checksum_version: u32_at(bytes, places::DATA_CHECKSUM_VERSION),
        crc: u32_at(bytes, places::CRC),
    }
}

/// The counters in a whole record's copy of the last checkpoint.
#[tactic(auto, unfolding(crate::specs::ControlRecord::counters_of))]
fn checkpoint_counters(bytes: &[u8]) -> Counters
    requires { 296 ≤ length bytes.now }
    ensures { result ≡ counters_of bytes.now }
{
    Counters {
        next_xid: u64_at(bytes, places::NEXT_XID),
        next_oid: u32_at(bytes, places::NEXT_OID),
        next_multi: u32_at(bytes, places::NEXT_MULTI),
        next_multi_offset: u32_at(bytes, places::NEXT_MULTI_OFFSET),
        oldest_xid: u32_at(bytes, places::OLDEST_XID),
        oldest_xid_db: u32_at(bytes, places::OLDEST_XID_DB),
        oldest_multi: u32_at(bytes, places::OLDEST_MULTI),
        oldest_multi_db: u32_at(bytes, places::OLDEST_MULTI_DB),
    }
}

/// The number in the four bytes from a place on.
#[tactic(auto, unfolding(crate::specs::ControlRecord::number_at))]
fn u32_at(bytes: &[u8], place: usize) -> u32
    requires { place + 4 ≤ length bytes.now }
    ensures { result ≡ number_at place 4 bytes.now }
{
    LittleEndian::read_u32(&bytes[place..])
}

/// The number in the eight bytes from a place on.
#[tactic(auto, unfolding(crate::specs::ControlRecord::number_at))]
fn u64_at(bytes: &[u8], place: usize) -> u64
    requires { place + 8 ≤ length bytes.now }
    ensures { result ≡ number_at place 8 bytes.now }
{
    LittleEndian::read_u64(&bytes[place..])
}

/// The signed number in the eight bytes from a place on.
fn i64_at(bytes: &[u8], place: usize) -> i64
    requires { place + 8 ≤ length bytes.now }
    ensures { result ≡ cast_signed w64 (number_at place 8 bytes.now) }
{
    u64_at(bytes, place).cast_signed()
}

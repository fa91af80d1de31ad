// Control files.
use crate::bytes::{bytes, shown};
use control_file::{
    Control, ControlError, Counters, RECORD_BYTES, Release, crc_is_the_only_remainder, crc32c,
    read_control, read_version, write_counters,
};
use std::alloc::Global;

/// A record of PostgreSQL 15 that was shut down. Its bytes and its CRC were made by another program, which divides bit by bit.
pub(crate) const RECORD: [u8; 296] = [
    20, 26, 50, 251, 124, 72, 43, 101, 20, 5, 0, 0, 37, 119, 13, 12, 1, 0, 0, 0, 0, 0, 0, 0, 0,
    241, 83, 101, 0, 0, 0, 0, 88, 77, 60, 43, 26, 0, 0, 0, 88, 77, 60, 43, 26, 0, 0, 0, 1, 0, 0, 0,
    1, 0, 0, 0, 1, 0, 0, 0, 0, 0, 0, 0, 238, 2, 0, 0, 3, 0, 0, 0, 1, 96, 0, 0, 5, 0, 0, 0, 11, 0,
    0, 0, 204, 2, 0, 0, 1, 0, 0, 0, 1, 0, 0, 0, 0, 64, 0, 0, 0, 0, 0, 0, 0, 241, 83, 101, 0, 0, 0,
    0, 0, 0, 0, 0, 0, 0, 0, 0, 0, 0, 0, 0, 0, 0, 0, 0, 0, 0, 0, 0, 0, 0, 0, 0, 0, 0, 0, 0, 0, 0, 0,
    0, 0, 0, 0, 0, 0, 0, 0, 0, 0, 0, 0, 0, 0, 0, 0, 0, 0, 0, 0, 0, 0, 0, 0, 0, 0, 0, 0, 0, 0, 0, 0,
    0, 0, 0, 0, 0, 0, 0, 0, 0, 0, 0, 0, 0, 0, 0, 0, 0, 0, 0, 0, 0, 0, 0, 0, 0, 0, 0, 0, 0, 8, 0, 0,
    0, 0, 0, 0, 0, 135, 214, 50, 65, 0, 32, 0, 0, 0, 0, 2, 0, 0, 32, 0, 0, 0, 0, 0, 1, 64, 0, 0, 0,
    32, 0, 0, 0, 204, 7, 0, 0, 0, 8, 0, 0, 1, 0, 0, 0, 1, 0, 0, 0, 3, 10, 17, 24, 31, 38, 45, 52,
    59, 66, 73, 80, 87, 94, 101, 108, 115, 122, 129, 136, 143, 150, 157, 164, 171, 178, 185, 192,
    199, 206, 213, 220, 148, 139, 12, 203, 0, 0, 0, 0,
];

const COUNTERS: Counters = Counters {
    next_xid: 0xffff_ffff_8000_0001,
    next_oid: 90001,
    next_multi: 90002,
    next_multi_offset: 90003,
    oldest_xid: 90004,
    oldest_xid_db: 90005,
    oldest_multi: 90006,
    oldest_multi_db: 90007,
};

fn release(word: &str) -> Option<Release> {
    match word {
        "15" => Some(Release::V15),
        "16" => Some(Release::V16),
        _ => None,
    }
}

fn control(alloc: Global, read: Result<Control, ControlError>) -> Option<String> {
    match read {
        Ok(control) => shown(alloc, &control),
        Err(error) => shown(alloc, &error),
    }
}

// Whether the record has these bytes once the counters are written.
fn written(alloc: Global, word: &str) -> Option<String> {
    let mut head = RECORD;
    write_counters(&mut head, &COUNTERS);
    let is_wanted = head.as_slice() == bytes(alloc, word)?.as_slice();
    shown(alloc, &is_wanted)
}

fn of_release(alloc: Global, release: Release) -> Option<String> {
    let name = release.dir_name();
    let version = release.catalog_version();
    let read = read_version(release.version_text());
    format!(in alloc; "{name} {version} {read:?}").ok()
}

fn of_bytes(alloc: Global, call: &str, bytes: &[u8], word: &str) -> Option<String> {
    match call {
        "crc" => format!(in alloc; "{:08x}", crc32c(bytes)).ok(),
        "version" => shown(alloc, &read_version(bytes)),
        "read" => control(alloc, read_control(bytes, release(word)?)),
        _ => None,
    }
}

/// What a call of a control file gives.
pub(crate) fn answer(alloc: Global, call: &str, words: &str) -> Option<String> {
    let (word, rest) = words.split_once(' ').unwrap_or((words, ""));
    match call {
        "size" => shown(alloc, &RECORD_BYTES),
        "release" => of_release(alloc, release(word)?),
        "written" => written(alloc, word),
        _ => of_bytes(alloc, call, &bytes(alloc, word)?, rest),
    }
}

/// The law of the checksum, whose contract is a theorem.
pub(crate) fn laws() {
    crc_is_the_only_remainder();
}

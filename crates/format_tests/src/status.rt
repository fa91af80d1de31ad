// Status files of transactions and of multixact ids.
use crate::bytes::{bytes, number, shown};
use control_file::Counters;
use fs_model::Bytes;
use multixact::{member_in, member_place, offset_place, updater};
use std::alloc::Global;
use xact_status::{Segments, SegmentsError, Window, known_of, place_of, precedes, status_in};

// ---- segments

fn push_segment(alloc: Global, parts: &mut Vec<(u32, Bytes)>, word: &str) -> Option<()> {
    let (segment, word) = word.split_once(':')?;
    let bytes = Bytes::new(bytes(alloc, word)?);
    parts.push((number(segment)?, bytes)).ok()
}

// Segments with `;` between them, each its number, `:` and its bytes.
fn parts(alloc: Global, word: &str) -> Option<Vec<(u32, Bytes)>> {
    let mut parts = Vec::new(alloc);
    for one in word.split(';') {
        push_segment(alloc, &mut parts, one)?;
    }
    Some(parts)
}

fn segments(alloc: Global, word: &str) -> Option<Segments> {
    Segments::new(alloc, parts(alloc, word)?).ok()
}

fn error(alloc: Global, word: &str) -> Option<SegmentsError> {
    Segments::new(alloc, parts(alloc, word)?).err()
}

// ---- transactions

fn window(words: &str) -> Option<(Window, u32)> {
    let (oldest, rest) = words.split_once(' ')?;
    let (next, xid) = rest.split_once(' ')?;
    let window = Window {
        oldest: number(oldest)?,
        next: number(next)?,
    };
    Some((window, number(xid)?))
}

fn known(alloc: Global, files: &Segments, words: &str) -> Option<String> {
    let (window, xid) = window(words)?;
    shown(alloc, &known_of(files, &window, xid))
}

fn byte_at(alloc: Global, files: &Segments, words: &str) -> Option<String> {
    let (segment, byte) = words.split_once(' ')?;
    shown(alloc, &files.byte_at(number(segment)?, number(byte)?))
}

// ---- multixact ids

// The counters of a cluster that keeps these multixact ids, whose next member has this number.
fn counters(oldest_multi: u32, next_multi: u32, next_multi_offset: u32) -> Counters {
    Counters {
        next_xid: 3,
        next_oid: 16384,
        next_multi,
        next_multi_offset,
        oldest_xid: 3,
        oldest_xid_db: 1,
        oldest_multi,
        oldest_multi_db: 1,
    }
}

fn counters_of(words: &str) -> Option<(Counters, u32)> {
    let (oldest, rest) = words.split_once(' ')?;
    let (next, rest) = rest.split_once(' ')?;
    let (next_offset, multi) = rest.split_once(' ')?;
    let counters = counters(number(oldest)?, number(next)?, number(next_offset)?);
    Some((counters, number(multi)?))
}

fn updated(alloc: Global, offsets: &Segments, members: &Segments, words: &str) -> Option<String> {
    let (counters, multi) = counters_of(words)?;
    shown(alloc, &updater(offsets, members, &counters, multi))
}

// The updater of a multixact id, by the offsets and by the segments and the counters that the words name.
fn updater_of(alloc: Global, offsets: &Segments, words: &str) -> Option<String> {
    let (members, counters) = words.split_once(' ')?;
    updated(alloc, offsets, &segments(alloc, members)?, counters)
}

// ---- calls

fn of_segments(alloc: Global, call: &str, files: &Segments, words: &str) -> Option<String> {
    match call {
        "known" => known(alloc, files, words),
        "status" => shown(alloc, &status_in(files, number(words)?)),
        "bytes" => shown(alloc, &files.bytes(number(words)?)),
        "byte" => byte_at(alloc, files, words),
        "member" => shown(alloc, &member_in(files, number(words)?)),
        "updater" => updater_of(alloc, files, words),
        _ => None,
    }
}

fn of_number(alloc: Global, call: &str, number: u32) -> Option<String> {
    match call {
        "place" => shown(alloc, &place_of(number)),
        "offset_place" => shown(alloc, &offset_place(number)),
        "member_place" => shown(alloc, &member_place(number)),
        _ => None,
    }
}

/// What a call of status files gives.
pub(crate) fn answer(alloc: Global, call: &str, words: &str) -> Option<String> {
    let (word, rest) = words.split_once(' ').unwrap_or((words, ""));
    match call {
        "place" | "offset_place" | "member_place" => of_number(alloc, call, number(word)?),
        "precedes" => shown(alloc, &precedes(number(word)?, number(rest)?)),
        "segments" => shown(alloc, &error(alloc, word)?),
        _ => of_segments(alloc, call, &segments(alloc, word)?, rest),
    }
}

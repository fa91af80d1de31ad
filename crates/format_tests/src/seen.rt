// Which tuples a snapshot sees.
use crate::bytes::{number, shown};
use heap_tuple::Header;
use std::alloc::Global;
use visibility::{Lookup, Snapshot, SnapshotError, visible};
use xact_status::Known;

// A cluster in which this transaction committed and all others aborted, and where multixact 1 has the updater 711 and
// multixact 2 has locks alone.
#[derive(Clone, Copy)]
struct Told {
    committed: u32,
}

impl Lookup for Told {
    ghost use Rattle.std.specs.Prelude.{◌==◌, if◌then◌else◌, Some, None};
    ghost use Rattle.xact_status.specs.declared.known.Known.TheVariants.{Committed, Aborted};

    ghost fates = { λ told xid. if xid == told.committed then Committed else Aborted };

    ghost updaters = { λ told multi. if multi == 1 then Some (Some 711) else (if multi == 2 then Some None else None) };

    fn known(&self, xid: u32) -> Known {
        if xid == self.committed {
            Known::Committed
        } else {
            Known::Aborted
        }
    }

    fn updater(&self, multi: u32) -> Option<Option<u32>> {
        match multi {
            1 => Some(Some(711)),
            2 => Some(None),
            _ => None,
        }
    }
}

fn header(infomask: u16, xmin: u32, xmax: u32) -> Header {
    Header {
        xmin,
        xmax,
        cid: 0,
        block: 0,
        line: 1,
        attributes: 1,
        infomask,
        infomask2: 1,
        hoff: 24,
    }
}

// A header by its infomask, xmin and xmax.
fn header_of(words: &str) -> Option<Header> {
    let (infomask, rest) = words.split_once(' ')?;
    let (xmin, xmax) = rest.split_once(' ')?;
    Some(header(
        u16::from_str_radix(infomask, 16).ok()?,
        number(xmin)?,
        number(xmax)?,
    ))
}

// Numbers with `,` between them; `none` is none.
fn numbers(alloc: Global, word: &str) -> Option<Vec<u32>> {
    let mut numbers = Vec::new(alloc);
    if word == "none" {
        return Some(numbers);
    }
    for one in word.split(',') {
        numbers.push(number(one)?).ok()?;
    }
    Some(numbers)
}

// A snapshot by its xmin, its xmax and what runs.
fn snapshot(alloc: Global, words: &str) -> Option<Result<Snapshot, SnapshotError>> {
    let (xmin, rest) = words.split_once(' ')?;
    let (xmax, running) = rest.split_once(' ')?;
    Some(Snapshot::new(number(xmin)?, number(xmax)?, numbers(alloc, running)?))
}

// Whether the snapshot sees the tuple where the transaction committed.
fn sees(alloc: Global, snapshot: &Snapshot, header: &str, committed: &str) -> Option<String> {
    let look = Told {
        committed: number(committed)?,
    };
    shown(alloc, &visible(&header_of(header)?, snapshot, &look))
}

/// What a call of a snapshot gives: its words, `:`, those of a tuple's header, `:`, and the transaction that committed.
pub(crate) fn answer(alloc: Global, call: &str, words: &str) -> Option<String> {
    let (taken, rest) = words.split_once(" : ").unwrap_or((words, ""));
    match (call, snapshot(alloc, taken)?) {
        ("tuple", Ok(snapshot)) => {
            let (header, committed) = rest.split_once(" : ")?;
            sees(alloc, &snapshot, header, committed)
        }
        ("snapshot", Err(error)) => shown(alloc, &error),
        _ => None,
    }
}

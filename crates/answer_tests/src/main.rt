//! Tests of the printed lines and of the exit statuses: puts the lines of answers of each kind, of each phase and of each
//! refusal to standard output, and then how many outcomes end with another status than the table wants. `stdout` is written by
//! hand.
#![tactic(auto)]

mod answers;
mod refusals;

use crate::answers::{WANTED, answer_at, changed_at};
use crate::refusals::{placed_at, plain_at};
use fs_model::{Path, Sink};
use fs_real::OutSink;
use std::alloc::Global;
use std::io;
use upgrade_answers::{Answer, Outcome, Printed, put_lines};

/// More than each of the tables has.
const ROWS: u32 = 32;

fn put<K: Sink>(out: &mut K, answer: &Answer) -> bool {
    put_lines(out, answer) == Printed::Whole
}

fn put_answers<K: Sink>(out: &mut K) {
    for n in 0..ROWS {
        if let Some(answer) = answer_at(n) {
            put(out, &answer);
        }
    }
}

fn put_refusals<K: Sink>(out: &mut K) {
    for n in 0..ROWS {
        if let Some(refusal) = plain_at(n) {
            put(out, &Answer::Refused(refusal));
        }
    }
}

// The refusals that speak of a path, with this one.
fn put_placed<K: Sink>(alloc: Global, out: &mut K, text: &str) {
    for n in 0..ROWS {
        let Ok(path) = Path::parse(alloc, text) else {
            return;
        };
        if let Some(refusal) = placed_at(n, path) {
            put(out, &Answer::Refused(refusal));
        }
    }
}

// Each change in the data directory of this path.
fn put_moved<K: Sink>(alloc: Global, out: &mut K, text: &str) {
    for n in 0..ROWS {
        let Ok(path) = Path::parse(alloc, text) else {
            return;
        };
        if let Some(change) = changed_at(n) {
            put(out, &Answer::Moved(path, change));
        }
    }
}

// Whether the answer at this place, printed so, ends with this status.
fn ends(n: u32, printed: Printed, status: u8) -> bool {
    match answer_at(n) {
        Some(answer) => Outcome { answer, printed }.code() == status,
        None => false,
    }
}

fn wrong_statuses() -> u64 {
    let mut wrong = 0u64;
    for (n, printed, status) in &WANTED {
        if !ends(*n, *printed, *status) {
            wrong = wrong.saturating_add(1);
        }
    }
    wrong
}

fn main(rt: HostRuntime) {
    let mut out = OutSink::new(io::writer(&rt));
    put_answers(&mut out);
    put_refusals(&mut out);
    put_placed(rt.alloc(), &mut out, "/new/pg_tblspc//17000");
    put_moved(rt.alloc(), &mut out, "/");
    put(&mut out, &Answer::Usage(wrong_statuses()));
}

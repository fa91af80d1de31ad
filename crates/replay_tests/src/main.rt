//! Tests of what a replay leaves where one of its calls fails, and of what a crash leaves of each of its states. They are a
//! program, since its cases cost no proof: `stdin` has catalog texts with names, and lines
//! `replay TEXT over TEXT, making PATH.. -> ANSWER` with their answers, written by hand. The program prints each line whose
//! answer is another, and the number of lines.
#![tactic(auto)]

mod clusters;
mod frames;
mod picks;
mod replays;
mod texts;

use crate::replays::said;
use fs_words::{call, check};
use std::io;

fn main(rt: HostRuntime) -> io::Result<()> {
    let input = io::read_to_string(rt.alloc(), rt.reader())?;
    let mut wrong = String::new(rt.alloc());
    let mut count = 0u64;
    for line in input.lines() {
        if let Some(words) = call(line).strip_prefix("replay ") {
            count = count.saturating_add(1);
            check(&mut wrong, line, &said(rt.alloc(), &input, words)?)?;
        }
    }
    println!(rt; "{wrong}{count} replays")?;
    Ok(())
}

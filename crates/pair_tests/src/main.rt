//! Tests of whole upgrades of pairs of clusters of many tables. A line of `stdin` has a number of tables and the options of a
//! command line: the pair stands in memory, or behind the word `disk` in a folder of the real disk. `stdout` has what the run
//! answers, how many rows are read from the old cluster's files before it and from the new one's behind it, by a snapshot for
//! which every transaction has ended, and on the disk what a report says then.
#![tactic(auto)]

mod places;
mod rows;
mod runs;

use crate::places::{in_memory, on_disk};
use std::alloc::Global;
use std::io;

fn answer(rt: &HostRuntime, alloc: Global, line: &str) -> Option<String> {
    match line.strip_prefix("disk ") {
        Some(rest) => on_disk(rt, alloc, rest),
        None => in_memory(alloc, line),
    }
}

fn main(rt: HostRuntime) -> io::Result<()> {
    for line in rt.lines(rt.alloc()) {
        let line = line?;
        match answer(&rt, rt.alloc(), line.as_str()) {
            Some(said) => println!(rt; "{line}\n{said}")?,
            None => println!(rt; "{line}\nnothing")?,
        }
    }
    Ok(())
}

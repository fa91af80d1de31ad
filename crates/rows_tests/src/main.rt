//! Tests of the rows that are read from the files of a cluster. They are a program, since its cases cost no proof: a block of
//! `stdin` has the columns of its tables, the files that differ from those of an empty cluster, and what is read, written by
//! hand. The program prints each answer that is another below the first line of its block, and the number of blocks.
#![tactic(auto)]

mod calls;
mod cluster;
mod pages;
mod values;

use crate::calls::wrong;
use std::io;

fn main(rt: HostRuntime) -> io::Result<()> {
    let input = io::read_to_string(rt.alloc(), rt.reader())?;
    let mut count = 0u64;
    for block in input.split("\n\n") {
        count = count.saturating_add(1);
        let wrong = wrong(rt.alloc(), block.trim_end())?;
        if !wrong.is_empty() {
            let title = block.lines().next().unwrap_or("");
            println!(rt; "{title}\n{wrong}")?;
        }
    }
    println!(rt; "{count} blocks")?;
    Ok(())
}

//! Tests of whole runs over file systems in memory. They are a program, since its cases cost no proof: a block of `stdin` has
//! what is changed of a small pair of clusters, `/old` and `/new`, which file systems open with it, and calls with their
//! answers, written by hand. The program prints each line that is answered otherwise below the first line of its block, and
//! the number of blocks.
#![tactic(auto)]

mod blocks;
mod crashes;
mod memory;
mod pair;
mod runs;
mod trees;

use crate::blocks::wrong;
use std::io;

fn main(rt: HostRuntime) -> io::Result<()> {
    let input = io::read_to_string(rt.alloc(), rt.reader())?;
    let mut count = 0u64;
    for block in input.split("\n\n") {
        count = count.saturating_add(1);
        let wrong = wrong(rt.alloc(), block)?;
        if !wrong.is_empty() {
            let title = block.lines().next().unwrap_or("");
            println!(rt; "{title}\n{wrong}")?;
        }
    }
    println!(rt; "{count} blocks")?;
    Ok(())
}

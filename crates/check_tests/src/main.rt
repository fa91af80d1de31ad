//! Tests of all checks of an upgrade. They are a program, since its cases cost no proof: a block of `stdin` has calls that
//! change a sample pair of clusters, the old one at `/o` and the new one at `/n`, and what the checks then answer, written by
//! hand from the table of refusals. The program prints each line that is answered otherwise below the first line of its
//! block, and the number of blocks.
#![tactic(auto)]

mod answers;
mod changes;
mod clusters;
mod refusals;

use crate::answers::wrong;
use std::io;

fn main(rt: HostRuntime) -> io::Result<()> {
    let input = io::read_to_string(rt.alloc(), rt.reader())?;
    let mut count = 0u64;
    for block in input.split("\n\n") {
        count = count.saturating_add(1);
        let wrong = wrong(rt.alloc(), block)?;
        if !wrong.is_empty() {
            let title = block.lines().next().unwrap_or("");
            println!(rt; "{title}\n{wrong}")?;
        }
    }
    println!(rt; "{count} blocks")?;
    Ok(())
}

//! Tests of the catalog: calls on it, one after another, and what each answers. They are a program, since its cases cost no
//! proof: a block of `stdin` has the calls over a catalog that a cluster starts with, and their answers, written by hand. The
//! program prints each call that answers otherwise below the first line of its block, and the number of blocks.
#![tactic(auto)]

mod answers;
mod calls;

use crate::answers::wrong;
use std::io;

fn main(rt: HostRuntime) -> io::Result<()> {
    let input = io::read_to_string(rt.alloc(), rt.reader())?;
    let mut count = 0u64;
    for block in input.split("\n\n") {
        count = count.saturating_add(1);
        let wrong = wrong(rt.alloc(), block)?;
        if !wrong.is_empty() {
            let title = block.lines().next().unwrap_or("");
            println!(rt; "{title}\n{wrong}")?;
        }
    }
    println!(rt; "{count} blocks")?;
    Ok(())
}

//! Tests of the catalog server that reads a cluster's own text, of one that fails, and of carrying a schema, over files in
//! memory. They are a program, since its cases cost no proof: a block of `stdin` is a catalog text with a name, or what is asked
//! of two clusters, with the answers, written by hand. The program prints each answer that is another below the first line of
//! its block, and the number of blocks.
#![tactic(auto)]

mod asks;
mod carries;
mod clusters;
mod texts;

use crate::asks::wrong;
use server_profile::ProfileServer;
use std::io;

fn main(rt: HostRuntime) -> io::Result<()> {
    let input = io::read_to_string(rt.alloc(), rt.reader())?;
    let mut server = ProfileServer::new();
    let mut count = 0u64;
    for block in input.split("\n\n") {
        let (title, lines) = block.split_once('\n').unwrap_or((block, ""));
        if title.starts_with('#') {
            count = count.saturating_add(1);
            let wrong = wrong(rt.alloc(), &mut server, &input, lines)?;
            if !wrong.is_empty() {
                println!(rt; "{title}\n{wrong}")?;
            }
        }
    }
    println!(rt; "{count} blocks")?;
    Ok(())
}

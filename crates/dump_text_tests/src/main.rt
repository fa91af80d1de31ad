//! Tests of the catalog text: texts written out by hand, read, replayed, loaded and printed. They are a program, since its
//! cases cost no proof: `stdin` has the texts and how each ends, written by hand, and the program prints each text that ends
//! otherwise, and their number.
#![tactic(auto)]

mod cases;
mod ends;
mod found;

use crate::cases::wrong;
use std::io;

fn main(rt: HostRuntime) -> io::Result<()> {
    let input = io::read_to_string(rt.alloc(), rt.reader())?;
    let mut base = "";
    let mut head = "";
    let mut count = 0u64;
    for line in input.lines() {
        if line.starts_with('=') {
            base = line;
        } else if line.starts_with('@') {
            head = line;
        } else if !line.starts_with('#') {
            count = count.saturating_add(1);
            if let Some(end) = wrong(rt.alloc(), base, head, line)? {
                let end = str::from_utf8(&end).unwrap_or("no text");
                println!(rt; "{head}\n{line}\nends: {end}")?;
            }
        }
    }
    println!(rt; "{count} texts")?;
    Ok(())
}

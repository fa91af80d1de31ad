//! Tests of file maps, of plans by them, and of carrying plans out. They are a program, since its cases cost no proof: a line of
//! `stdin` has two catalog texts with `|` between them, or the files of a table in the old directory and in the new one. Each
//! line is answered by the map, the plan or the files that were carried, as `stdout` has it, written by hand. Last comes a
//! catalog of 5,000 tables.
#![tactic(auto)]

mod carries;
mod many;
mod maps;
mod plans;

use crate::carries::{copied, linked};
use crate::many::many;
use crate::maps::mapped;
use crate::plans::planned;
use std::io;

fn main(rt: HostRuntime) -> io::Result<()> {
    let alloc = rt.alloc();
    for line in rt.lines(alloc) {
        let line = line?;
        let (call, words) = line.as_str().split_once(' ').unwrap_or((line.as_str(), ""));
        let said = match call {
            "plan" => planned(alloc, words)?,
            "copy" => copied(alloc, words)?,
            "link" => linked(alloc, words)?,
            _ => mapped(alloc, line.as_str())?,
        };
        println!(rt; "{line}\n    -> {said}")?;
    }
    let said = many(alloc)?;
    println!(rt; "{said}")?;
    Ok(())
}

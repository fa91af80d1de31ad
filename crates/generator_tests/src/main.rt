//! Tests of the pairs of clusters that are made from a number: the answers come from another program, which was written
//! after the same description. A line of `stdin` is a call, and `stdout` has the answers.
#![tactic(auto)]

mod answers;
mod rows;

use crate::answers::answer;
use std::io;

fn main(rt: HostRuntime) -> io::Result<()> {
    for line in rt.lines(rt.alloc()) {
        let line = line?;
        match answer(rt.alloc(), line.as_str()) {
            Some(said) => println!(rt; "{line}\n{said}")?,
            None => println!(rt; "{line}\nnothing")?,
        }
    }
    Ok(())
}

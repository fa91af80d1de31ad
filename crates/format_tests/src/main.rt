//! Tests of the bytes of a cluster's files: tuples, pages, control files, status files, and which tuples a snapshot sees. They
//! are a program, since its cases cost no proof: a line of `stdin` has a call and, behind ` -> `, its answer, written by hand or
//! made by another program. The program prints each line that is answered otherwise, and their number.
#![tactic(auto)]

mod bytes;
mod control;
mod pages;
mod seen;
mod status;
mod tuples;

use std::alloc::{AllocError, Global};
use std::io;

// What the call of a line gives. A call that cannot be read, or want of memory, gives nothing.
fn called(alloc: Global, line: &str) -> Option<String> {
    let (kind, rest) = line.split_once(' ')?;
    let (call, words) = rest.split_once(' ')?;
    match kind {
        "tuple" => tuples::answer(alloc, call, words),
        "page" => pages::answer(alloc, call, words),
        "control" => control::answer(alloc, call, words),
        "status" => status::answer(alloc, call, words),
        "seen" => seen::answer(alloc, call, words),
        _ => None,
    }
}

// What is wrong with a line, if anything is.
fn wrong(alloc: Global, line: &str) -> Result<Option<String>, AllocError> {
    let (call, wanted) = line.split_once(" -> ").unwrap_or((line, ""));
    match called(alloc, call) {
        Some(said) => if said.as_str() == wanted {
            Ok(None)
        } else {
            Ok(Some(said))
        },
        None => Ok(Some(String::from_str(alloc, "nothing")?)),
    }
}

fn main(rt: HostRuntime) -> io::Result<()> {
    control::laws();
    let mut count = 0u64;
    for line in rt.lines(rt.alloc()) {
        let line = line?;
        if !line.as_str().starts_with('#') {
            count = count.saturating_add(1);
            if let Some(said) = wrong(rt.alloc(), line.as_str())? {
                println!(rt; "{line}\ngives: {said}")?;
            }
        }
    }
    println!(rt; "{count} lines")?;
    Ok(())
}

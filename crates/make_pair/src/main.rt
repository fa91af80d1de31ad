//! Makes a pair of clusters of many tables, `old` and `new`, in a directory that its first word names and that doesn't stand
//! yet: of so many tables as its second word says, at most 200. Ends with status 1 where it could not.
#![tactic(auto)]

use fs_model::{Fs, Path};
use fs_real::RealFs;
use pair_trees::put_pair;
use std::env;
use std::process::ExitCode;

fn make(rt: &HostRuntime) -> Option<()> {
    let alloc = rt.alloc();
    let mut words = env::args(rt).ok()?;
    let word = words.nth(1)?;
    let tables = words.next()?.parse::<u64>().ok()?;
    let dir = Path::parse(alloc, word.as_str()).ok()?;
    let mut fs = RealFs::new(rt, alloc);
    fs.make_dir(&dir).ok()?;
    put_pair(alloc, &mut fs, &dir, tables)
}

fn main(rt: HostRuntime) -> ExitCode {
    match make(&rt) {
        Some(()) => ExitCode::SUCCESS,
        None => ExitCode::FAILURE,
    }
}

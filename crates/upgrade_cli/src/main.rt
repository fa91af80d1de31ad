//! The program: upgrades a cluster on the real disk.
//!
//! `upgrade_cli -d OLD -D NEW` hands its words, the disk and standard output to `upgrade_run::run`, and ends with the
//! status of the outcome. It prints nothing to standard error.
#![tactic(auto)]

mod args;

use crate::args::words;
use fs_real::{OutSink, RealFs};
use server_profile::ProfileServer;
use std::io;
use std::process::ExitCode;
use upgrade_run::run;

/// The status where memory lacks before the words are read. Nothing is printed then.
const NO_MEMORY: u8 = 6;

fn main(rt: HostRuntime) -> ExitCode {
    let alloc = rt.alloc();
    let Ok(words) = words(&rt, alloc) else {
        return ExitCode::from(NO_MEMORY);
    };
    let mut fs = RealFs::new(&rt, alloc);
    let mut server = ProfileServer::new();
    let mut out = OutSink::new(io::writer(&rt));
    let outcome = run(alloc, &words, &mut fs, &mut server, &mut out);
    ExitCode::from(outcome.code())
}

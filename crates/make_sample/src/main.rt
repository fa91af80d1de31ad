//! Makes the small pair of clusters, `old` and `new`, in a directory that its word names and that doesn't stand yet. Ends with
//! status 1 where it could not.
#![tactic(auto)]

use fs_model::{Fs, Path};
use fs_real::RealFs;
use sample_clusters::make_pair;
use std::env;
use std::process::ExitCode;

fn make_small<F: Fs>(fs: &mut F, dir: &Path) -> Option<()> {
    let old = dir.join(&["old"]).ok()?;
    let new = dir.join(&["new"]).ok()?;
    make_pair(fs, &old, &new).ok()
}

fn make(rt: &HostRuntime) -> Option<()> {
    let alloc = rt.alloc();
    let word = env::args(rt).ok()?.nth(1)?;
    let dir = Path::parse(alloc, word.as_str()).ok()?;
    let mut fs = RealFs::new(rt, alloc);
    fs.make_dir(&dir).ok()?;
    make_small(&mut fs, &dir)
}

fn main(rt: HostRuntime) -> ExitCode {
    match make(&rt) {
        Some(()) => ExitCode::SUCCESS,
        None => ExitCode::FAILURE,
    }
}

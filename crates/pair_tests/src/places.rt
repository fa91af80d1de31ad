// Where a pair stands: in memory, or in a folder of the real disk.
use crate::runs::{answer_over, ran};
use cluster_gen::make;
use fs_model::{Fs, Path};
use fs_real::RealFs;
use pair_trees::put_pair;
use std::alloc::Global;
use std::env::Env;

// The number of tables and the options that a line has.
fn parts(line: &str) -> Option<(u64, &str)> {
    let (number, options) = line.split_once(' ').unwrap_or((line, ""));
    let tables = number.parse::<u64>().ok()?;
    Some((tables, options))
}

/// A run over the pair in memory that a line asks for.
pub(crate) fn in_memory(alloc: Global, line: &str) -> Option<String> {
    let (tables, options) = parts(line)?;
    let mut fs = make(alloc, tables).ok()?;
    answer_over(alloc, &mut fs, "", options)
}

// A folder for the pair of a line, in that which the program runs in.
fn folder(rt: &HostRuntime, alloc: Global, tables: u64, options: &str) -> Option<String> {
    let mut buffer = [0u8; 4096];
    let length = rt.current_dir(&mut buffer).ok()?;
    let here = str::from_utf8(&buffer[..length.min(4096)]).ok()?;
    format!(in alloc; "{here}/pair{options}{tables}").ok()
}

/// A run over the pair on the real disk that a line asks for, and the report behind it.
pub(crate) fn on_disk(rt: &HostRuntime, alloc: Global, line: &str) -> Option<String> {
    let (tables, options) = parts(line)?;
    let top = folder(rt, alloc, tables, options)?;
    let dir = Path::parse(alloc, top.as_str()).ok()?;
    let mut fs = RealFs::new(rt, alloc);
    fs.make_dir(&dir).ok()?;
    put_pair(alloc, &mut fs, &dir, tables)?;
    let said = answer_over(alloc, &mut fs, top.as_str(), options)?;
    let report = ran(alloc, &mut fs, top.as_str(), "--report")?;
    format!(in alloc; "{said}\n{}", report.trim_end()).ok()
}

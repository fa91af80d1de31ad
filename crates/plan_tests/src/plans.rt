// What the plan of one table is, by the files that stand.
use crate::maps::{job, path_of};
use dump_text::load;
use fs_mem::{MemFs, Tree};
use fs_model::{Fs, FsError, Path};
use fs_tools::make_file;
use plan_build::plan_of;
use relation_map::{FileMap, build};
use std::alloc::{AllocError, Global};
use transfer_plan::{Plan, PlanItem};

static TABLE: &str =
    "BOOTSTRAP postgres; CONNECT postgres; SET NEXT type 16385; SET NEXT table 16385; SET NEXT table_file 16385; CREATE TABLE public.t OWNER postgres TABLESPACE pg_default (a int4);";

static DIRS: [&str; 7] = [
    "/o",
    "/o/global",
    "/o/base",
    "/o/base/5",
    "/n",
    "/n/base",
    "/n/base/5",
];

/// The map of the table onto itself.
pub(crate) fn map_of(alloc: Global) -> Result<FileMap, AllocError> {
    let Ok(catalog) = load(alloc, TABLE.as_bytes()) else {
        return Err(AllocError);
    };
    match build(alloc, &catalog, &catalog, &job(alloc)?) {
        Ok(map) => Ok(map),
        Err(_) => Err(AllocError),
    }
}

/// A file system in memory without files.
pub(crate) fn empty(alloc: Global) -> Result<MemFs, AllocError> {
    match MemFs::new(alloc, Tree::new(Vec::new(alloc)), Vec::new(alloc)) {
        Ok(fs) => Ok(fs),
        Err(_) => Err(AllocError),
    }
}

// A word `NAME=BYTES` of a directory.
fn put<F: Fs>(alloc: Global, fs: &mut F, dir: &str, word: &str) -> Result<(), FsError> {
    let (name, bytes) = word.split_once('=').unwrap_or((word, ""));
    let text = format!(in alloc; "{dir}/{name}")?;
    make_file(fs, &path_of(alloc, text.as_str())?, bytes.as_bytes())
}

fn put_all<F: Fs>(alloc: Global, fs: &mut F, dir: &str, words: &str) -> Result<(), FsError> {
    for word in words.split_whitespace() {
        put(alloc, fs, dir, word)?;
    }
    Ok(())
}

/// Makes the directories of both clusters, the old control file, and the files of a line: `NAME=BYTES` in the old directory,
/// and behind `|` in the new one.
pub(crate) fn make_all<F: Fs>(alloc: Global, fs: &mut F, line: &str) -> Result<(), FsError> {
    for text in &DIRS {
        fs.make_dir(&path_of(alloc, text)?)?;
    }
    let (old, new) = line.split_once('|').unwrap_or((line, ""));
    put(alloc, fs, "/o/global", "pg_control=control")?;
    put_all(alloc, fs, "/o/base/5", old)?;
    put_all(alloc, fs, "/n/base/5", new)
}

fn push_item(said: &mut String, item: &PlanItem) -> Result<(), AllocError> {
    let alloc = *said.allocator();
    let from = item.from.text()?;
    let to = item.to.text()?;
    let mark = if item.replaces { "*" } else { "" };
    let text = format!(in alloc; "{from} {to}{mark}; ")?;
    said.push_str(&text)
}

fn items_text(alloc: Global, plan: &Plan) -> Result<String, AllocError> {
    let mut said = String::new(alloc);
    for item in plan.items() {
        push_item(&mut said, item)?;
    }
    Ok(said)
}

fn plan_text<F: Fs>(
    alloc: Global,
    fs: &mut F,
    map: &FileMap,
    line: &str,
) -> Result<String, FsError> {
    make_all(alloc, fs, line)?;
    let plan = plan_of(alloc, fs, map)?;
    Ok(items_text(alloc, &plan)?)
}

/// The plan of the table, by the files of a line.
pub(crate) fn planned(alloc: Global, line: &str) -> Result<String, AllocError> {
    let map = map_of(alloc)?;
    said(alloc, plan_text(alloc, &mut empty(alloc)?, &map, line))
}

/// What was said, unless memory lacked.
pub(crate) fn said(alloc: Global, text: Result<String, FsError>) -> Result<String, AllocError> {
    match text {
        Ok(text) => Ok(text),
        Err(FsError::OutOfMemory) => Err(AllocError),
        Err(error) => format!(in alloc; "{error:?}"),
    }
}

// The schema of the old cluster carried by a server of which a call may fail.
use crate::texts::{catalog, printed, shown};
use catalog::Catalog;
use control_file::{Job, Mode};
use failing_server::FailingServer;
use fs_mem::MemFs;
use fs_model::FsError;
use fs_words::path;
use restore::carry_schema;
use server_profile::ProfileServer;
use std::alloc::{AllocError, Global};

fn job(alloc: Global) -> Result<Job, FsError> {
    Ok(Job {
        old: path(alloc, "", "/old")?,
        new: path(alloc, "", "/new")?,
        mode: Mode::Copy,
    })
}

fn ended(
    alloc: Global,
    fs: &mut MemFs,
    input: &str,
    server: &mut FailingServer,
    old: &Catalog,
    job: &Job,
) -> Result<String, AllocError> {
    match carry_schema(alloc, server, fs, job, old) {
        Ok(catalog) => printed(alloc, input, &catalog),
        Err(error) => format!(in alloc; "{error:?}"),
    }
}

// How often the server was asked to replay a text, and the last of these.
fn push_replays(said: &mut String, input: &str, server: &FailingServer) -> Result<(), AllocError> {
    let alloc = *said.allocator();
    let count = server.replays();
    if count == 0 {
        return said.push_str(", no replay");
    }
    let text = shown(alloc, input, server.text())?;
    said.push_str(&format!(in alloc; ", {count} replay of {text}")?)
}

fn carried(
    alloc: Global,
    fs: &mut MemFs,
    input: &str,
    server: &mut FailingServer,
    old: &Catalog,
) -> Result<String, FsError> {
    let mut said = ended(alloc, fs, input, server, old, &job(alloc)?)?;
    push_replays(&mut said, input, server)?;
    Ok(said)
}

/// How it ends: the words are the name of the text that was read of the old cluster before, and the number of the server's call
/// that fails, if one is to.
pub(crate) fn carry(
    alloc: Global,
    fs: &mut MemFs,
    input: &str,
    words: &str,
) -> Result<String, FsError> {
    let (name, fails) = words.split_once(' ').unwrap_or((words, ""));
    let old = catalog(alloc, input, name)?;
    let inner = ProfileServer::new();
    let mut server = FailingServer::new(alloc, inner, fails.parse::<u64>().ok());
    carried(alloc, fs, input, &mut server, &old)
}

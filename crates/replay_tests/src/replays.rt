// Replays over a new cluster, whole and with a call that fails.
use crate::clusters::{clusters, failing, path_of};
use crate::frames::{Frame, is_framed_always, is_framed_now};
use crate::picks::picks;
use crate::texts::text;
use catalog_server::{Server, ServerError};
use control_file::Release;
use fs_mem::{Failing, MemFs};
use fs_model::{Fs, FsError, Path};
use server_profile::ProfileServer;
use std::alloc::{AllocError, Global};

// The text that is replayed on the new cluster at this root, the text of the catalog that the cluster has, and the frame.
#[derive(Clone, Copy)]
struct Case<'a> {
    root: &'a Path,
    text: &'a str,
    start: &'a str,
    frame: Frame<'a>,
}

fn replay(alloc: Global, fs: &mut MemFs, case: Case<'_>) -> Result<(), ServerError> {
    ProfileServer::new().replay(alloc, fs, case.root, Release::V16, case.text.as_bytes())
}

// Whether a replay tells the call that fails.
fn tells(alloc: Global, fs: &mut MemFs, case: Case<'_>) -> bool {
    matches!(
        replay(alloc, fs, case),
        Err(ServerError::Fs(FsError::Failed))
    )
}

// The number of calls of a whole replay, if each image of each of its states has the frame.
fn calls_of(alloc: Global, case: Case<'_>) -> Option<u64> {
    let mut fs = failing(alloc, case.text, case.start, None)?;
    let whole = replay(alloc, &mut fs, case).is_ok();
    (whole && is_framed_always(alloc, &fs, case.frame)).then_some(fs.moment())
}

// Whether a replay tells the call that fails, and each image of the state that it leaves has the frame.
fn fails_framed(alloc: Global, case: Case<'_>, call: u64, effect: bool) -> bool {
    let fails = Failing { call, effect };
    match failing(alloc, case.text, case.start, Some(fails)) {
        Some(mut fs) => tells(alloc, &mut fs, case) && is_framed_now(alloc, &fs, case.frame),
        None => false,
    }
}

fn answer(alloc: Global, case: Case<'_>) -> Result<String, AllocError> {
    let Some(calls) = calls_of(alloc, case) else {
        return String::from_str(alloc, "the whole replay has no frame");
    };
    let framed = (0..calls).all(|call| {
        fails_framed(alloc, case, call, false) && fails_framed(alloc, case, call, true)
    });
    if framed {
        format!(in alloc; "{calls} calls")
    } else {
        format!(in alloc; "{calls} calls, one that fails leaves no frame")
    }
}

fn paths(alloc: Global, words: &str) -> Result<Vec<Path>, AllocError> {
    let mut paths = Vec::new(alloc);
    for word in words.split(' ') {
        paths.push(path_of(alloc, word).ok_or(AllocError)?)?;
    }
    Ok(paths)
}

fn over<'a>(
    alloc: Global,
    text: &'a str,
    start: &'a str,
    listed: &'a [Path],
) -> Result<String, AllocError> {
    let root = path_of(alloc, "/new").ok_or(AllocError)?;
    let tree = clusters(alloc, text, start).ok_or(AllocError)?;
    let picks = picks(alloc)?;
    let frame = Frame {
        start: tree.items(),
        listed,
        picks: &picks,
    };
    answer(
        alloc,
        Case {
            root: &root,
            text,
            start,
            frame,
        },
    )
}

/// How many calls the replay of a text has, if in each image of each of its states, and of each state that it leaves where one
/// of its calls fails, all that stood stands and nothing else, but for the paths that are listed. The words are
/// `TEXT over TEXT, making PATH..`; the old cluster has the replayed text too.
pub(crate) fn said(alloc: Global, input: &str, words: &str) -> Result<String, AllocError> {
    let (name, rest) = words.split_once(" over ").unwrap_or((words, ""));
    let (start, listed) = rest.split_once(", making ").unwrap_or((rest, ""));
    over(
        alloc,
        text(input, name),
        text(input, start),
        &paths(alloc, listed)?,
    )
}

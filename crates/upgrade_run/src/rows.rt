// The rows of a self-test: how many there have to be, and how many are read.
ghost use Rattle.std.specs.Prelude.{◌≡◌, ◌≤◌, ◌-◌, ◌^◌, true, min, IfOk, IfErr};
ghost use Rattle.control_file.specs.declared.releases.Release.TheVariants.{V16};
ghost use Rattle.cluster_meaning.specs.Cluster.{opened};
ghost use Rattle.cluster_gen.specs.Page.{live_rows};
ghost use Rattle.row_counts.specs.Counted.{rows_of_cluster};
ghost use Rattle.upgrade_run.specs.SelfTests.{all_ended, HasRows, IsUnread};

use catalog::Catalog;
use catalog_server::{Server, ServerError};
use cluster_read::ReadError;
use control_file::Release;
use fs_model::{Fs, FsError, Path};
use phase_names::PhaseName;
use row_counts::count_rows;
use std::alloc::Global;
use upgrade_answers::Answer;
use visibility::Snapshot;

/// How many rows of the first so many tables of a made pair aren't deleted: of the rows 1 to m each third one is.
pub(crate) fn made_rows(tables: u64) -> u64
    requires { tables ≤ 200 }
    ensures { result ≡ live_rows tables }
{
    let mut rows = 0u64;
    for table in 0..tables {
        let made = table % 7;
        rows += made - made / 3;
    }
    rows
}

fn unread(error: ReadError) -> Answer
    ensures { IsUnread result }
{
    match error {
        ReadError::OutOfMemory => Answer::NoMemory(PhaseName::Count),
        _ => Answer::TestFailed,
    }
}

fn unserved(error: ServerError) -> Answer
    ensures { IsUnread result }
{
    match error {
        ServerError::OutOfMemory => Answer::NoMemory(PhaseName::Count),
        ServerError::Fs(FsError::OutOfMemory) => Answer::NoMemory(PhaseName::Count),
        _ => Answer::TestFailed,
    }
}

// The number of rows of all tables of a catalog, by a snapshot for which every transaction of the pair has ended.
fn counted<F: Fs>(alloc: Global, fs: &mut F, root: &Path, catalog: &Catalog) -> Result<u64, Answer>
    ensures rows { F.told fs.old ≡ true → IfOk result (λ rows. rows ≡ min (rows_of_cluster (F.trail fs.old).present (opened (F.trail fs.old).present root.now V16 catalog.now) all_ended) (2 ^ 64 - 1)) }
    ensures ends { IfErr result IsUnread }
{
    let Ok(snapshot) = Snapshot::new(800, 800, Vec::new(alloc)) else {
        return Err(Answer::TestFailed);
    };
    match count_rows(alloc, fs, root, Release::V16, catalog, &snapshot) {
        Ok(rows) => Ok(rows),
        Err(error) => Err(unread(error)),
    }
}

/// The number of rows of all tables of the new cluster at a root, as the server reads its catalog there.
pub(crate) fn rows_read<F: Fs, S: Server<F>>(
    alloc: Global,
    server: &mut S,
    fs: &mut F,
    root: &Path,
) -> Result<u64, Answer>
    ensures rows { F.told fs.old ≡ true → IfOk result (HasRows S.catalog_of root.now (F.trail fs.old).present) }
    ensures ends { IfErr result IsUnread }
{
    match server.read_catalog(alloc, fs, root, Release::V16) {
        Ok(catalog) => counted(alloc, fs, root, &catalog),
        Err(error) => Err(unserved(error)),
    }
}

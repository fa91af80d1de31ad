// The self-test: a made pair of clusters is upgraded in memory, and the rows of its new cluster are counted.
ghost use Rattle.std.specs.Prelude.{◌≡◌, ◌≤◌, ◌∷◌, [], true, false, Ok, IfOk, IfErr};
ghost use Rattle.fs_model.specs.State.{FsState};
ghost use Rattle.fs_model.specs.Trail.{Counts};
ghost use Rattle.fs_model.specs.WellFormed.{WellFormed};
ghost use Rattle.control_file.specs.declared.job.Job.{Job as AJob};
ghost use Rattle.control_file.specs.declared.modes.Mode.{Mode as AMode};
ghost use Rattle.catalog_server.specs.Answers.{ServerCounts};
ghost use Rattle.upgrade_run.specs.Causes.{UpgradeHasCause, TestHasCause};
ghost use Rattle.upgrade_run.specs.Means.{IfDone, HasBegun};
ghost use Rattle.upgrade_run.specs.Ends.{EndsFinished};
ghost use Rattle.upgrade_run.specs.SelfTests.{new_root, pair_job, AreOfPair, IsTestedFrom, IsUnread, IfTested};
ghost use Rattle.upgrade_run.specs.Made.{IsTested};

use crate::rows::{made_rows, rows_read};
use crate::upgrade::upgrade;
use catalog_server::Server;
use cluster_gen::{GenError, make};
use control_file::{Job, Mode};
use fs_model::{Fs, Path};
use phase_names::{PhaseName, Summary};
use server_profile::ProfileServer;
use std::alloc::{AllocError, Global};
use upgrade_answers::Answer;

fn root_named(alloc: Global, name: &str) -> Result<Path, AllocError>
    ensures { IfOk result (λ path. path ≡ name.now ∷ []) }
{
    match Path::root(alloc).join(&[name]) {
        Ok(path) => Ok(path),
        Err(_) => Err(AllocError),
    }
}

fn pair_job(alloc: Global, mode: Mode) -> Result<Job, AllocError>
    ensures { IfOk result (λ job. job ≡ pair_job mode) }
{
    let old = root_named(alloc, "old")?;
    let new = root_named(alloc, "new")?;
    Ok(Job { old, new, mode })
}

// Whether the numbers are those of the pair with so many tables.
fn are_of_pair(tables: u64, summary: Summary, rows: u64) -> bool
    requires { tables ≤ 200 }
    ensures { result ≡ true → AreOfPair tables summary rows }
{
    summary.databases == 4
        && summary.tables == tables
        && summary.files == 3 * tables
        && rows == made_rows(tables)
}

// The answer where the upgrade is done.
fn counted_answer(tables: u64, summary: Summary, rows: Result<u64, Answer>) -> Answer
    requires small { tables ≤ 200 }
    requires unread { IfErr rows IsUnread }
    ensures begun { HasBegun result }
    ensures own_cause { (mode : AMode) → TestHasCause mode result }
    ensures tested { IfTested result (λ said seen. (said ≡ summary) × (rows ≡ Ok seen) × AreOfPair tables summary seen) }
{
    match rows {
        Ok(seen) => {
            if are_of_pair(tables, summary, seen) {
                Answer::Tested(summary, seen)
            } else {
                Answer::TestFailed
            }
        }
        Err(answer) => answer,
    }
}

// Counts the rows of the pair's new cluster, where its upgrade is done.
fn count_pair<F: Fs, S: Server<F>>(
    alloc: Global,
    server: &mut S,
    fs: &mut F,
    tables: u64,
    new: &Path,
    upgraded: &Answer,
) -> Answer
    requires small { tables ≤ 200 }
    requires new { new.now ≡ new_root }
    requires begun { HasBegun upgraded.now }
    ensures begun { HasBegun result }
    ensures own_cause { (job : AJob) (before now : Counts) (server_before server_now : ServerCounts) → UpgradeHasCause job false upgraded.now before now server_before server_now → TestHasCause job.mode result }
    ensures tested { F.told fs.old ≡ true → (mode : AMode) (s : FsState) → IfDone upgraded.now (EndsFinished S.catalog_of (pair_job mode) s (F.trail fs.old).present) → IfTested result (IsTestedFrom S.catalog_of tables mode s) }
{
    match upgraded {
        Answer::Done(summary) => {
            let rows = rows_read(alloc, server, fs, new);
            counted_answer(tables, *summary, rows)
        }
        Answer::NoMemory(at) => Answer::NoMemory(*at),
        _ => Answer::TestFailed,
    }
}

// Upgrades the pair, and counts the rows of its new cluster.
fn upgrade_pair<F: Fs, S: Server<F>>(
    alloc: Global,
    server: &mut S,
    fs: &mut F,
    tables: u64,
    job: Job,
    new: &Path,
) -> Answer
    requires small { tables ≤ 200 }
    requires new { new.now ≡ new_root }
    requires well_formed { F.told fs.old ≡ true → WellFormed (F.trail fs.old).present }
    ensures begun { HasBegun result }
    ensures own_cause { TestHasCause job.mode result }
    ensures tested { F.told fs.old ≡ true → (mode : AMode) → job ≡ pair_job mode → IfTested result (IsTestedFrom S.catalog_of tables mode (F.trail fs.old).present) }
{
    let upgraded = upgrade(alloc, server, fs, job);
    count_pair(alloc, server, fs, tables, new, &upgraded)
}

// The same, from the mode alone.
fn test_pair<F: Fs, S: Server<F>>(
    alloc: Global,
    server: &mut S,
    fs: &mut F,
    tables: u64,
    mode: Mode,
) -> Answer
    requires small { tables ≤ 200 }
    requires well_formed { F.told fs.old ≡ true → WellFormed (F.trail fs.old).present }
    ensures begun { HasBegun result }
    ensures own_cause { TestHasCause mode result }
    ensures tested { F.told fs.old ≡ true → IfTested result (IsTestedFrom S.catalog_of tables mode (F.trail fs.old).present) }
{
    let Ok(job) = pair_job(alloc, mode) else {
        return Answer::NoMemory(PhaseName::Make);
    };
    let Ok(new) = root_named(alloc, "new") else {
        return Answer::NoMemory(PhaseName::Make);
    };
    upgrade_pair(alloc, server, fs, tables, job, &new)
}

/// Makes a pair of clusters with so many tables in memory, upgrades it through the phases of every upgrade with the shipped
/// server, counts the rows of all tables of the new cluster, and compares the numbers with those of the pair.
pub(crate) fn self_test(alloc: Global, tables: u64, mode: Mode) -> Answer
    ensures begun { HasBegun result }
    ensures own_cause { TestHasCause mode result }
    ensures tested { IfTested result (IsTested tables mode) }
{
    match make(alloc, tables) {
        Ok(made) => {
            let mut fs = made;
            test_pair(alloc, &mut ProfileServer::new(), &mut fs, tables, mode)
        }
        Err(GenError::TooMany) => Answer::TestFailed,
        Err(GenError::OutOfMemory) => Answer::NoMemory(PhaseName::Make),
    }
}

// From the words of a command line to the printed answer.
ghost use Rattle.std.specs.Prelude.{◌≡◌, ◌⊎◌, ◌++◌, ℕ, Bool, true};
ghost use Rattle.fs_model.specs.Crash.{Settled};
ghost use Rattle.fs_model.specs.Output.{IsPartPut};
ghost use Rattle.fs_model.specs.Trail.{Since, Unchanged, Rose, HasCause};
ghost use Rattle.control_file.specs.declared.job.Job.{Job as AJob};
ghost use Rattle.control_file.specs.declared.modes.Mode.{Mode as AMode};
ghost use Rattle.command_words.specs.Words.{AsksForDirectory, texts};
ghost use Rattle.phase_frames.specs.Framed.{IsFramed};
ghost use Rattle.accepted_words.specs.declared.line.Line.{Line as ALine};
ghost use Rattle.accepted_words.specs.declared.line.Line.TheVariants as asked;
ghost use Rattle.accepted_words.specs.Accepted.{Asks, IsFaultAt};
ghost use Rattle.upgrade_answers.specs.Lines.{lines_of, PrintedRose};
ghost use Rattle.upgrade_run.specs.Causes.{HasOwnCause, ServerCounted, failure_in};
ghost use Rattle.upgrade_run.specs.Means.{LeavesAll, IfDone, IsUsage, IsFsFault, HasBegun, Means, Completes};
ghost use Rattle.upgrade_run.specs.Ends.{CrashesSafely, EndsFinished};
ghost use Rattle.upgrade_run.specs.SelfTests.{IfTested};
ghost use Rattle.upgrade_run.specs.Made.{IsTested};

use crate::report::report;
use crate::selftest::self_test;
use crate::upgrade::{check_only, upgrade};
use accepted_words::{Line, read_line};
use catalog_server::Server;
use command_words::WordsError;
use fs_model::{Fs, Sink};
use phase_names::PhaseName;
use std::alloc::Global;
use upgrade_answers::{Answer, Outcome, Printed, put_lines};

// Does what the line asks for.
fn answer_line<F: Fs, S: Server<F>>(alloc: Global, fs: &mut F, server: &mut S, line: Line) -> Answer
    ensures told { F.told fs.new ≡ F.told fs.old }
    ensures firm { F.firm fs.new ≡ F.firm fs.old }
    ensures begun { HasBegun result }
    ensures unchanged { F.told fs.old ≡ true → LeavesAll result → Unchanged (F.trail fs.old) (F.trail fs.new) }
    ensures means { F.told fs.old ≡ true → Means S.catalog_of (F.trail fs.old).present line result }
    ensures frame { F.told fs.old ≡ true → (job : AJob) (check : Bool) → line ≡ asked.Upgrade job check → Since (IsFramed job (F.trail fs.old).present) (F.trail fs.old) (F.trail fs.new) }
    ensures crashes { F.told fs.old ≡ true → Settled (F.trail fs.old).present → (LeavesAll result → ⊥) → (job : AJob) (check : Bool) → line ≡ asked.Upgrade job check → CrashesSafely S.catalog_of job (F.trail fs.old) (F.trail fs.new) }
    ensures finished { F.told fs.old ≡ true → (job : AJob) (check : Bool) → line ≡ asked.Upgrade job check → IfDone result (EndsFinished S.catalog_of job (F.trail fs.old).present (F.trail fs.new).present) }
    ensures apart { (tables : ℕ) (mode : AMode) → line ≡ asked.SelfTest tables mode → (F.trail fs.new ≡ F.trail fs.old) × (F.counts fs.new ≡ F.counts fs.old) × (S.counts server.new ≡ S.counts server.old) }
    ensures tested { (tables : ℕ) (mode : AMode) → line ≡ asked.SelfTest tables mode → IfTested result (IsTested tables mode) }
    ensures own_cause { HasOwnCause line result (F.counts fs.old) (F.counts fs.new) (S.counts server.old) (S.counts server.new) }
    ensures counts { HasCause (F.firm fs.old) (F.counts fs.old) (F.counts fs.new) (failure_in result) }
    ensures server { ServerCounted (S.counts server.old) (S.counts server.new) result }
{
    // A file system that tells its state tells with this that it is well-formed.
    let _ = fs.moment();
    match line {
        Line::Upgrade(job, false) => upgrade(alloc, server, fs, job),
        Line::Upgrade(job, true) => check_only(alloc, server, fs, &job),
        Line::Report(old, new) => report(alloc, fs, old, &new),
        Line::SelfTest(tables, mode) => self_test(alloc, tables, mode),
    }
}

// Reads the words, and does what they ask for.
fn answer<F: Fs, S: Server<F>>(
    alloc: Global,
    words: &[String],
    fs: &mut F,
    server: &mut S,
) -> Answer
    ensures told { F.told fs.new ≡ F.told fs.old }
    ensures firm { F.firm fs.new ≡ F.firm fs.old }
    ensures usage { (position : ℕ) → result ≡ Answer.Usage position → IsFaultAt (texts words.now) position }
    ensures asked { IsUsage result ⊎ (result ≡ Answer.NoMemory PhaseName.Words) ⊎ ((line : ALine) × Asks (texts words.now) line) }
    ensures lacking { result ≡ Answer.NoMemory PhaseName.Words → AsksForDirectory (texts words.now) }
    ensures unchanged { F.told fs.old ≡ true → LeavesAll result → Unchanged (F.trail fs.old) (F.trail fs.new) }
    ensures untouched { IsUsage result ⊎ (result ≡ Answer.NoMemory PhaseName.Words) → (F.trail fs.new ≡ F.trail fs.old) × (F.counts fs.new ≡ F.counts fs.old) × (S.counts server.new ≡ S.counts server.old) }
    ensures means { F.told fs.old ≡ true → (line : ALine) → Asks (texts words.now) line → Means S.catalog_of (F.trail fs.old).present line result }
    ensures frame { F.told fs.old ≡ true → (job : AJob) (check : Bool) → Asks (texts words.now) (asked.Upgrade job check) → Since (IsFramed job (F.trail fs.old).present) (F.trail fs.old) (F.trail fs.new) }
    ensures crashes { F.told fs.old ≡ true → Settled (F.trail fs.old).present → (LeavesAll result → ⊥) → (job : AJob) (check : Bool) → Asks (texts words.now) (asked.Upgrade job check) → CrashesSafely S.catalog_of job (F.trail fs.old) (F.trail fs.new) }
    ensures finished { F.told fs.old ≡ true → (job : AJob) (check : Bool) → Asks (texts words.now) (asked.Upgrade job check) → IfDone result (EndsFinished S.catalog_of job (F.trail fs.old).present (F.trail fs.new).present) }
    ensures apart { (tables : ℕ) (mode : AMode) → Asks (texts words.now) (asked.SelfTest tables mode) → (F.trail fs.new ≡ F.trail fs.old) × (F.counts fs.new ≡ F.counts fs.old) × (S.counts server.new ≡ S.counts server.old) }
    ensures tested { (tables : ℕ) (mode : AMode) → Asks (texts words.now) (asked.SelfTest tables mode) → IfTested result (IsTested tables mode) }
    ensures own_cause { (line : ALine) → Asks (texts words.now) line → HasOwnCause line result (F.counts fs.old) (F.counts fs.new) (S.counts server.old) (S.counts server.new) }
    ensures counts { HasCause (F.firm fs.old) (F.counts fs.old) (F.counts fs.new) (failure_in result) }
    ensures server { ServerCounted (S.counts server.old) (S.counts server.new) result }
{
    match read_line(alloc, words) {
        Ok(line) => answer_line(alloc, fs, server, line),
        Err(WordsError::Usage(position)) => Answer::Usage(position),
        Err(WordsError::OutOfMemory) => Answer::NoMemory(PhaseName::Words),
    }
}

/// Does what the words ask for, and prints the answer's lines.
///
/// The words are those of an upgrade, in copy or link mode and with `--check` or without, of a report, or of a self-test. An
/// upgrade tests all conditions of `Refusal` first, in their order; where one holds, the first is answered and nothing is
/// changed. Then the new cluster gets the old one's schema, transaction status, counters and relation files, and is marked once
/// all is on the disk. A report tells where an upgrade stands. A self-test upgrades a made pair of clusters in memory, and
/// counts the rows of the new one.
///
/// Its contract, in the order of its clauses. A usage fault is at the first word that begins no accepted line, and else a line was
/// read; memory lacks before that only where a word asks for a directory. After the answers that change nothing no state was changed, and before the words are read no call was made. `Refused`
/// has the first condition that held in the state at the beginning; a phase behind the checks is told only where none held;
/// `Moved` never comes where the file system tells its states; a report has the verdict of that state.
/// In every state of an upgrade, also where not all was on the disk at the beginning, names and bytes at no new place are as at
/// the beginning, but for the later name of the old control file in link mode. Where all was on the disk at the beginning and
/// anything was changed, every crash at any moment of the run leaves the old cluster as it was, but for that name, shares none
/// of its files while it has its control file, and either has no mark or an upgraded cluster; a report on it finds no file
/// shared with a cluster that can be started and no control file missing, and in link mode naming the control file back gives
/// the old cluster as it was. After `Done` the new cluster is the old one, upgraded, the summary counts its databases, its tables
/// and the files of relations that are carried from the beginning, the mark stands, and all is on the disk if it was at the
/// beginning. A self-test makes no call of the file system and of the server; `Tested` has the numbers of the pair, and an
/// upgrade of it has ended so in a state in which these rows are seen. Each fault was counted in this run and comes in a phase
/// that may meet it, want of memory while files are carried was the file system's, and `Done` comes only without `--check`,
/// `Checked` only with it. Where neither the file system nor the server failed, the answer is the first condition that held, or
/// `Done` or `Checked`, or a report's verdict, or that of a self-test, but for want of memory. No failure is kept quiet, and
/// where the file system doesn't fail none is told. The printed bytes are the answer's lines, and a first part of them where the
/// sink failed or lacked memory.
pub fn run<F: Fs, S: Server<F>, K: Sink>(
    alloc: Global,
    words: &[String],
    fs: &mut F,
    server: &mut S,
    out: &mut K,
) -> Outcome
    ensures told { F.told fs.new ≡ F.told fs.old }
    ensures firm { F.firm fs.new ≡ F.firm fs.old }
    ensures usage { (position : ℕ) → result.answer ≡ Answer.Usage position → IsFaultAt (texts words.now) position }
    ensures asked { IsUsage result.answer ⊎ (result.answer ≡ Answer.NoMemory PhaseName.Words) ⊎ ((line : ALine) × Asks (texts words.now) line) }
    ensures lacking { result.answer ≡ Answer.NoMemory PhaseName.Words → AsksForDirectory (texts words.now) }
    ensures unchanged { F.told fs.old ≡ true → LeavesAll result.answer → Unchanged (F.trail fs.old) (F.trail fs.new) }
    ensures untouched { IsUsage result.answer ⊎ (result.answer ≡ Answer.NoMemory PhaseName.Words) → (F.trail fs.new ≡ F.trail fs.old) × (F.counts fs.new ≡ F.counts fs.old) × (S.counts server.new ≡ S.counts server.old) }
    ensures means { F.told fs.old ≡ true → (line : ALine) → Asks (texts words.now) line → Means S.catalog_of (F.trail fs.old).present line result.answer }
    ensures frame { F.told fs.old ≡ true → (job : AJob) (check : Bool) → Asks (texts words.now) (asked.Upgrade job check) → Since (IsFramed job (F.trail fs.old).present) (F.trail fs.old) (F.trail fs.new) }
    ensures crashes { F.told fs.old ≡ true → Settled (F.trail fs.old).present → (LeavesAll result.answer → ⊥) → (job : AJob) (check : Bool) → Asks (texts words.now) (asked.Upgrade job check) → CrashesSafely S.catalog_of job (F.trail fs.old) (F.trail fs.new) }
    ensures finished { F.told fs.old ≡ true → (job : AJob) (check : Bool) → Asks (texts words.now) (asked.Upgrade job check) → IfDone result.answer (EndsFinished S.catalog_of job (F.trail fs.old).present (F.trail fs.new).present) }
    ensures apart { (tables : ℕ) (mode : AMode) → Asks (texts words.now) (asked.SelfTest tables mode) → (F.trail fs.new ≡ F.trail fs.old) × (F.counts fs.new ≡ F.counts fs.old) × (S.counts server.new ≡ S.counts server.old) }
    ensures tested { (tables : ℕ) (mode : AMode) → Asks (texts words.now) (asked.SelfTest tables mode) → IfTested result.answer (IsTested tables mode) }
    ensures own_cause { (line : ALine) → Asks (texts words.now) line → HasOwnCause line result.answer (F.counts fs.old) (F.counts fs.new) (S.counts server.old) (S.counts server.new) }
    ensures completes { F.told fs.old ≡ true → (Rose (F.counts fs.old).faults (F.counts fs.new).faults → ⊥) → (Rose (S.counts server.old).faults (S.counts server.new).faults → ⊥) → (line : ALine) → Asks (texts words.now) line → Completes S.catalog_of (F.trail fs.old).present line result.answer }
    ensures counts { HasCause (F.firm fs.old) (F.counts fs.old) (F.counts fs.new) (failure_in result.answer) }
    ensures server { ServerCounted (S.counts server.old) (S.counts server.new) result.answer }
    ensures sound { F.firm fs.old ≡ true → IsFsFault result.answer → ⊥ }
    ensures sink_told { K.told out.new ≡ K.told out.old }
    ensures whole { K.told out.old ≡ true → result.printed ≡ Printed.Whole → K.written out.new ≡ K.written out.old ++ lines_of result.answer }
    ensures begun { K.told out.old ≡ true → IsPartPut (K.written out.old) (lines_of result.answer) (K.written out.new) }
    ensures printed { PrintedRose result.printed (K.counts out.old) (K.counts out.new) }
{
    let answer = answer(alloc, words, fs, server);
    let printed = put_lines(out, &answer);
    Outcome { answer, printed }
}

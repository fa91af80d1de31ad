// The printed lines of an answer. No call here takes memory.
ghost use Rattle.std.specs.Prelude.{◌≡◌, ◌++◌, true};
ghost use Rattle.fs_model.specs.Output.{SinkHasCause, IsPartPut};
ghost use Rattle.upgrade_answers.specs.Lines.{refusal_line, counted_lines, verdict_text, change_text, lines_of, printed_of, PrintedRose};
ghost use Rattle.upgrade_answers.specs.Puts.{Puts};

use crate::parts::{put_labelled, put_place, put_three};
use crate::reasons::put_reason;
use crate::texts::{error_text, phase_text};
use crate::{Answer, Printed, Verdict};
use compat_checks::{Change, Refusal};
use fs_model::{Path, Sink, SinkError};
use phase_names::Summary;

fn put_refusal<K: Sink>(out: &mut K, refusal: &Refusal) -> Result<(), SinkError>
    ensures told { K.told out.new ≡ K.told out.old }
    ensures appended { K.told out.old ≡ true → Puts (K.written out.old) (refusal_line refusal.now) result (K.written out.new) }
    ensures cause { SinkHasCause (K.counts out.old) (K.counts out.new) result }
{
    out.put(b"refused: ")?;
    put_reason(out, refusal)?;
    out.put(b"\n")
}

// The numbers of what was carried.
fn put_counted<K: Sink>(out: &mut K, summary: Summary) -> Result<(), SinkError>
    ensures told { K.told out.new ≡ K.told out.old }
    ensures appended { K.told out.old ≡ true → Puts (K.written out.old) (counted_lines summary) result (K.written out.new) }
    ensures cause { SinkHasCause (K.counts out.old) (K.counts out.new) result }
{
    put_labelled(out, b"databases: ", summary.databases)?;
    put_labelled(out, b"\ntables: ", summary.tables)?;
    put_labelled(out, b"\nfiles: ", summary.files)?;
    out.put(b"\n")
}

fn put_done<K: Sink>(out: &mut K, summary: Summary) -> Result<(), SinkError>
    ensures told { K.told out.new ≡ K.told out.old }
    ensures appended { K.told out.old ≡ true → Puts (K.written out.old) (lines_of (Answer.Done summary)) result (K.written out.new) }
    ensures cause { SinkHasCause (K.counts out.old) (K.counts out.new) result }
{
    out.put(b"checks: ok\n")?;
    put_counted(out, summary)?;
    out.put(b"upgrade: done\n")
}

fn put_tested<K: Sink>(out: &mut K, summary: Summary, rows: u64) -> Result<(), SinkError>
    ensures told { K.told out.new ≡ K.told out.old }
    ensures appended { K.told out.old ≡ true → Puts (K.written out.old) (lines_of (Answer.Tested summary rows)) result (K.written out.new) }
    ensures cause { SinkHasCause (K.counts out.old) (K.counts out.new) result }
{
    put_counted(out, summary)?;
    put_labelled(out, b"rows: ", rows)?;
    out.put(b"\nselftest: done\n")
}

fn put_verdict<K: Sink>(out: &mut K, verdict: Verdict) -> Result<(), SinkError>
    ensures told { K.told out.new ≡ K.told out.old }
    ensures appended { K.told out.old ≡ true → Puts (K.written out.old) (verdict_text verdict) result (K.written out.new) }
    ensures cause { SinkHasCause (K.counts out.old) (K.counts out.new) result }
{
    match verdict {
        Verdict::Finished => out.put(b"finished"),
        Verdict::Untouched => out.put(b"untouched"),
        Verdict::Disabled => out.put(b"disabled"),
        Verdict::Linked(paths) => put_labelled(out, b"linked ", paths),
        Verdict::Unsafe(paths) => put_labelled(out, b"unsafe ", paths),
        Verdict::NoControl => out.put(b"no control"),
    }
}

fn put_report<K: Sink>(out: &mut K, verdict: Verdict) -> Result<(), SinkError>
    ensures told { K.told out.new ≡ K.told out.old }
    ensures appended { K.told out.old ≡ true → Puts (K.written out.old) (lines_of (Answer.Reported verdict)) result (K.written out.new) }
    ensures cause { SinkHasCause (K.counts out.old) (K.counts out.new) result }
{
    out.put(b"report: ")?;
    put_verdict(out, verdict)?;
    out.put(b"\n")
}

fn put_usage<K: Sink>(out: &mut K, position: u64) -> Result<(), SinkError>
    ensures told { K.told out.new ≡ K.told out.old }
    ensures appended { K.told out.old ≡ true → Puts (K.written out.old) (lines_of (Answer.Usage position)) result (K.written out.new) }
    ensures cause { SinkHasCause (K.counts out.old) (K.counts out.new) result }
{
    put_labelled(out, b"usage fault at word ", position)?;
    out.put(b"\n")
}

fn put_change<K: Sink>(out: &mut K, change: Change) -> Result<(), SinkError>
    ensures told { K.told out.new ≡ K.told out.old }
    ensures appended { K.told out.old ≡ true → Puts (K.written out.old) (change_text change) result (K.written out.new) }
    ensures cause { SinkHasCause (K.counts out.old) (K.counts out.new) result }
{
    match change {
        Change::Refused(error) => out.put(error_text(error)),
        Change::Text(line) => put_labelled(out, b"text line ", line),
        Change::Differs => out.put(b"catalog differs"),
    }
}

fn put_moved<K: Sink>(out: &mut K, root: &Path, change: Change) -> Result<(), SinkError>
    ensures told { K.told out.new ≡ K.told out.old }
    ensures appended { K.told out.old ≡ true → Puts (K.written out.old) (lines_of (Answer.Moved root.now change)) result (K.written out.new) }
    ensures cause { SinkHasCause (K.counts out.old) (K.counts out.new) result }
{
    put_place(out, b"changed under the run: ", root, b", ")?;
    put_change(out, change)?;
    out.put(b"\n")
}

fn put_answer<K: Sink>(out: &mut K, answer: &Answer) -> Result<(), SinkError>
    ensures told { K.told out.new ≡ K.told out.old }
    ensures appended { K.told out.old ≡ true → Puts (K.written out.old) (lines_of answer.now) result (K.written out.new) }
    ensures cause { SinkHasCause (K.counts out.old) (K.counts out.new) result }
{
    match answer {
        Answer::Done(summary) => put_done(out, *summary),
        Answer::Checked => out.put(b"checks: ok\n"),
        Answer::Reported(verdict) => put_report(out, *verdict),
        Answer::Tested(summary, rows) => put_tested(out, *summary, *rows),
        Answer::TestFailed => out.put(b"selftest: failed\n"),
        Answer::Usage(position) => put_usage(out, *position),
        Answer::Refused(refusal) => put_refusal(out, refusal),
        Answer::FsFault(phase) => put_three(out, b"file fault in ", phase_text(*phase), b"\n"),
        Answer::ServerFault(phase) => put_three(
            out,
            b"server fault in ",
            phase_text(*phase),
            b"\n",
        ),
        Answer::NoMemory(phase) => put_three(out, b"out of memory in ", phase_text(*phase), b"\n"),
        Answer::Moved(root, change) => put_moved(out, root, *change),
    }
}

fn printed(put: Result<(), SinkError>) -> Printed
    ensures { result ≡ printed_of put }
{
    match put {
        Ok(()) => Printed::Whole,
        Err(SinkError::Failed) => Printed::SinkFailed,
        Err(SinkError::OutOfMemory) => Printed::NoMemory,
    }
}

/// Puts the lines of an answer into a sink, each ended by a newline. After an error a first part of the lines was put. Takes no
/// memory of its own.
#[tactic(auto, using(crate::proofs::Pieces::part_put))]
pub fn put_lines<K: Sink>(out: &mut K, answer: &Answer) -> Printed
    ensures told { K.told out.new ≡ K.told out.old }
    ensures whole { K.told out.old ≡ true → result ≡ Printed.Whole → K.written out.new ≡ K.written out.old ++ lines_of answer.now }
    ensures begun { K.told out.old ≡ true → IsPartPut (K.written out.old) (lines_of answer.now) (K.written out.new) }
    ensures rose { PrintedRose result (K.counts out.old) (K.counts out.new) }
{
    printed(put_answer(out, answer))
}

// The real disk over a disk that answers by a script.
use crate::calls::{Row, right};
use crate::cases::{CASES, Case};
use crate::failures::FAILURES;
use crate::opened::Opened;
use crate::script::{Reply, Script, Step};
use crate::scripted_disk::ScriptedDisk;
use fs_model::{Sink, SinkError};
use fs_real::{OutSink, RealFs};
use std::alloc::Global;
use std::io::ErrorKind;
use std::process::Abort;
use std::rt::Files;
use std::test::Fail;

// How many calls give the answers that are wanted. The files that are kept open are closed at the end.
fn answered<R: Files>(alloc: Global, disk: &R, rows: &[Row<'_>]) -> Result<usize, Fail> {
    let mut fs = RealFs::new(disk, alloc);
    right(alloc, &mut fs, "", rows)
}

// How many calls give their answers, and how many steps they take that are in the script.
fn made(alloc: Global, case: &Case) -> Result<(usize, usize), Fail> {
    let script = Script::new(alloc, case.system);
    let disk = ScriptedDisk { script: &script };
    Ok((answered(alloc, &disk, case.calls)?, script.made()))
}

// Each case gives its answers by its steps.
fn all_hold(rt: &impl Abort, alloc: Global, cases: &[Case]) -> Result<(), Fail> {
    for case in cases {
        let (calls, steps) = made(alloc, case)?;
        let name = case.name;
        assert!(rt; calls == case.calls.len(), "{name} Call {calls}.");
        assert!(rt; steps == case.system.len(), "{name} Step {steps}.");
    }
    Ok(())
}

#[test]
fn each_call_asks_for_what_it_should(rt: HostRuntime) -> Result<(), Fail> {
    all_hold(&rt, rt.alloc(), &CASES)?;
    all_hold(&rt, rt.alloc(), &FAILURES)
}

// What a sink over a writer of this script answers to a text. The writer is closed at the end.
fn put(script: &Script, text: &str) -> Result<(), SinkError> {
    let mut sink = OutSink::new(Opened {
        script,
        path: "output",
    });
    sink.put(text.as_bytes())
}

// Whether a sink answers this by exactly these steps.
fn puts(alloc: Global, text: &str, want: Result<(), SinkError>, steps: &'static [Step]) -> bool {
    let script = Script::new(alloc, steps);
    put(&script, text) == want && script.made() == steps.len()
}

// A text that is written in two parts, with a signal between them, and flushed.
static TWO_PARTS: [Step; 5] = [
    ("write hello to output", Reply::Takes(2)),
    ("write llo to output", Reply::Fails(ErrorKind::Interrupted)),
    ("write llo to output", Reply::Takes(3)),
    ("flush output", Reply::Done),
    ("close output", Reply::Done),
];

static NOT_TAKEN: [Step; 2] = [
    ("write hello to output", Reply::Takes(0)),
    ("close output", Reply::Done),
];

static PIPE_CLOSED: [Step; 3] = [
    ("write hello to output", Reply::Takes(2)),
    ("write llo to output", Reply::Fails(ErrorKind::BrokenPipe)),
    ("close output", Reply::Done),
];

static NOT_FLUSHED: [Step; 3] = [
    ("write hello to output", Reply::Takes(5)),
    ("flush output", Reply::Fails(ErrorKind::StorageFull)),
    ("close output", Reply::Done),
];

static NO_MEMORY: [Step; 2] = [
    (
        "write hello to output",
        Reply::Fails(ErrorKind::OutOfMemory),
    ),
    ("close output", Reply::Done),
];

#[test]
fn a_sink_writes_all_and_flushes(rt: HostRuntime) {
    let alloc = rt.alloc();
    assert!(rt; puts(alloc, "hello", Ok(()), &TWO_PARTS));
    assert!(rt; puts(alloc, "hello", Err(SinkError::Failed), &NOT_TAKEN));
    assert!(rt; puts(alloc, "hello", Err(SinkError::Failed), &PIPE_CLOSED));
    assert!(rt; puts(alloc, "hello", Err(SinkError::Failed), &NOT_FLUSHED));
    assert!(rt; puts(alloc, "hello", Err(SinkError::OutOfMemory), &NO_MEMORY));
}

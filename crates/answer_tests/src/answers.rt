// Answers of each kind and of each phase.
use compat_checks::Change;
use fs_model::FsError;
use phase_names::{PhaseName, Summary};
use upgrade_answers::{Answer, Printed, Verdict};

const SUMMARY: Summary = Summary {
    databases: 6,
    tables: 40,
    files: 241,
};

/// The answer at a place of the table, if there is one.
pub(crate) fn answer_at(n: u32) -> Option<Answer> {
    match n {
        0 => Some(Answer::Done(SUMMARY)),
        1 => Some(Answer::Checked),
        2 => Some(Answer::Reported(Verdict::Finished)),
        3 => Some(Answer::Reported(Verdict::Untouched)),
        4 => Some(Answer::Reported(Verdict::Disabled)),
        5 => Some(Answer::Reported(Verdict::Linked(12))),
        6 => Some(Answer::Reported(Verdict::Unsafe(1))),
        7 => Some(Answer::Reported(Verdict::NoControl)),
        8 => Some(Answer::Tested(SUMMARY, 453)),
        9 => Some(Answer::Usage(0)),
        10 => Some(Answer::FsFault(PhaseName::Disable)),
        11 => Some(Answer::FsFault(PhaseName::Finish)),
        12 => Some(Answer::FsFault(PhaseName::Report)),
        13 => Some(Answer::ServerFault(PhaseName::Check)),
        14 => Some(Answer::ServerFault(PhaseName::Restore)),
        15 => Some(Answer::NoMemory(PhaseName::Words)),
        16 => Some(Answer::NoMemory(PhaseName::Status)),
        17 => Some(Answer::NoMemory(PhaseName::Transfer)),
        18 => Some(Answer::NoMemory(PhaseName::Make)),
        19 => Some(Answer::NoMemory(PhaseName::Count)),
        20 => Some(Answer::TestFailed),
        _ => None,
    }
}

/// The change at a place of the table, if there is one.
pub(crate) fn changed_at(n: u32) -> Option<Change> {
    match n {
        0 => Some(Change::Refused(FsError::NotFound)),
        1 => Some(Change::Refused(FsError::Exists)),
        2 => Some(Change::Refused(FsError::NotDir)),
        3 => Some(Change::Refused(FsError::WrongKind)),
        4 => Some(Change::Refused(FsError::NotEmpty)),
        5 => Some(Change::Refused(FsError::CrossDevice)),
        6 => Some(Change::Refused(FsError::CrossDir)),
        7 => Some(Change::Refused(FsError::Failed)),
        8 => Some(Change::Refused(FsError::OutOfMemory)),
        9 => Some(Change::Text(0)),
        10 => Some(Change::Differs),
        _ => None,
    }
}

/// The place of an answer, what became of its lines, and the status that is wanted.
pub(crate) static WANTED: [(u32, Printed, u8); 16] = [
    (0, Printed::Whole, 0),
    (0, Printed::SinkFailed, 5),
    (0, Printed::NoMemory, 6),
    (1, Printed::Whole, 0),
    (1, Printed::SinkFailed, 5),
    (5, Printed::NoMemory, 6),
    (8, Printed::SinkFailed, 5),
    (9, Printed::Whole, 2),
    (9, Printed::SinkFailed, 2),
    (10, Printed::Whole, 3),
    (11, Printed::NoMemory, 3),
    (13, Printed::Whole, 4),
    (14, Printed::SinkFailed, 4),
    (15, Printed::Whole, 6),
    (20, Printed::Whole, 8),
    (20, Printed::SinkFailed, 8),
];

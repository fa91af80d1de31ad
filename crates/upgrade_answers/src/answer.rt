// What the upgrade answers, and the exit status that tells it.
ghost use Rattle.std.specs.Prelude.{◌≡◌};
ghost use Rattle.upgrade_answers.specs.Code.{printed_code, code_of};

use compat_checks::{Change, Refusal};
use fs_model::Path;
use phase_names::{PhaseName, Summary};

/// Where an upgrade of one cluster into another stands, by the files that stand and their inodes.
#[derive(Clone, Copy, Debug, PartialEq, Eq)]
pub enum Verdict {
    /// It has ended: the new cluster has its mark.
    Finished,
    /// The old cluster has its control file and shares no file.
    Untouched,
    /// The old cluster's control file is renamed, and no file is shared.
    Disabled,
    /// The old cluster's control file is renamed, and so many paths of the new one are files of the old one.
    Linked(u64),
    /// The old cluster has its control file, and so many paths of the new one are files of the old one.
    Unsafe(u64),
    /// The old cluster has its control file under neither name.
    NoControl,
}

/// How a run ended.
#[derive(Drop)]
pub enum Answer {
    /// The new cluster has what the old one has.
    Done(Summary),
    /// No condition of the checks holds, and no more was asked for. Nothing was changed.
    Checked,
    /// Where an upgrade stands. Nothing was changed.
    Reported(Verdict),
    /// A made pair of clusters was upgraded in memory; the last is the number of rows that were read in the new one.
    Tested(Summary, u64),
    /// The upgrade of a made pair of clusters in memory didn't end as it has to, or another number of rows was read.
    TestFailed,
    /// The words are no accepted command line, from this position on.
    Usage(u64),
    /// A condition of the checks holds. Nothing was changed.
    Refused(Refusal),
    /// The file system failed.
    FsFault(PhaseName),
    /// The catalog server failed.
    ServerFault(PhaseName),
    /// The files below this data directory changed under the run.
    Moved(Path, Change),
    /// Memory lacked.
    NoMemory(PhaseName),
}

/// Whether the answer's lines were printed.
#[derive(Clone, Copy, Debug, PartialEq, Eq)]
pub enum Printed {
    Whole,
    /// The sink failed.
    SinkFailed,
    /// The sink lacked memory.
    NoMemory,
}

/// How a run ended, and whether that was printed.
#[derive(Drop)]
pub struct Outcome {
    pub answer: Answer,
    pub printed: Printed,
}

// The exit status of a run that reached what was asked for.
fn printed_code(printed: Printed) -> u8
    ensures { result ≡ printed_code printed }
{
    match printed {
        Printed::Whole => 0,
        Printed::SinkFailed => 5,
        Printed::NoMemory => 6,
    }
}

impl Outcome {
    /// The exit status: 0 for Done, Checked, Reported and Tested, 1 Refused, 2 Usage, 3 a file fault, 4 a fault of the
    /// server, 6 want of memory, 7 Moved, 8 TestFailed; where it would be 0 and the lines were not printed, 5 where the sink
    /// failed and 6 where it lacked memory.
    pub fn code(&self) -> u8
        ensures { result ≡ code_of self.now.answer self.now.printed }
    {
        match &self.answer {
            Answer::Done(_) | Answer::Checked | Answer::Reported(_) | Answer::Tested(_, _) => {
                printed_code(self.printed)
            }
            Answer::Refused(_) => 1,
            Answer::Usage(_) => 2,
            Answer::FsFault(_) => 3,
            Answer::ServerFault(_) => 4,
            Answer::NoMemory(_) => 6,
            Answer::Moved(_, _) => 7,
            Answer::TestFailed => 8,
        }
    }
}

/// A phase of a run, in which it may end.
#[derive(Clone, Copy, Debug, PartialEq, Eq)]
pub enum PhaseName {
    /// The command line is read.
    Words,
    /// Both clusters are checked.
    Check,
    /// The schema is carried into the new cluster.
    Restore,
    /// The status of transactions is carried, and the counters.
    Status,
    /// The old cluster is disabled. In link mode alone.
    Disable,
    /// The relation files are copied or linked.
    Transfer,
    /// All is put on the disk, and the new cluster is marked as done.
    Finish,
    /// It is told where an upgrade stands.
    Report,
    /// Two clusters are made for a self-test.
    Make,
    /// The rows of a self-test are counted.
    Count,
}

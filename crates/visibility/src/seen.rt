/// Whether a snapshot sees a tuple.
#[derive(Clone, Copy, Debug, PartialEq, Eq)]
pub enum Seen {
    /// It sees the tuple.
    Yes,
    /// The tuple isn't inserted for it, or is deleted.
    No,
    /// The cluster doesn't tell what became of a transaction that decides.
    Unknown,
}

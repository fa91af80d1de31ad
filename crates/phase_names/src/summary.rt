/// What an upgrade carried.
#[derive(Clone, Copy, Debug, PartialEq, Eq)]
pub struct Summary {
    /// The databases of the old catalog, the three built-in ones included.
    pub databases: u64,
    /// The tables in them.
    pub tables: u64,
    /// The relation files that were copied or linked.
    pub files: u64,
}

//! The words with which an upgrade is asked for and its answers are told.

/// How the old cluster's relation files come into the new cluster (`--link` and `--copy` of the manual's chapter on
/// `pg_upgrade`).
#[derive(Clone, Copy, Debug, PartialEq, Eq)]
pub enum Mode {
    /// Each file is copied.
    Copy,
    /// Each file gets a second name, a hard link.
    Link,
}

/// One of the two clusters of an upgrade.
#[derive(Clone, Copy, Debug, PartialEq, Eq)]
pub enum Side {
    /// The cluster that is upgraded.
    Old,
    /// The cluster that it is upgraded into.
    New,
}

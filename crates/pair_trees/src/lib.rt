//! Puts a pair of clusters of many tables, which `cluster_gen` makes in memory, into a directory of any file system: what the
//! sample, the benchmark and the tests on the real disk begin with.
#![tactic(auto)]

mod putting;

pub use putting::put_pair;

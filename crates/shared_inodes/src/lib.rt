//! The files that two clusters share: those of which both have a name. Where the file system tells its states, the least
//! path of the new cluster's is found exactly, and their number.
#![tactic(auto)]

mod inodes;
mod outermost;
mod regions;
mod shared;
mod walks;

pub use shared::{SharedFiles, shared_files, shared_inode};

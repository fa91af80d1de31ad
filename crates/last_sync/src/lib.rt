//! The end of an upgrade: all of the new cluster is put on the disk, and only then a mark is made, which says so. A crash
//! that leaves the mark leaves all else as it was when the mark was made.
#![tactic(auto)]

mod finish;
mod laws;
mod mark;
mod places;
mod trees;

pub use finish::finish_cluster;
pub use laws::marked_crashes;
pub use places::Places;

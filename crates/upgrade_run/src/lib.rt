//! The upgrade as one call: from the words of a command line, a file system and a catalog server to an upgraded cluster, the
//! printed lines and the exit status. The program above calls `run` and nothing else.
#![tactic(auto)]

mod answers;
mod report;
mod rows;
mod running;
mod selftest;
mod upgrade;

pub use running::run;

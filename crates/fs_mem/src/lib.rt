//! A file system in memory, which tells its trail, and a sink in memory, which tells its bytes. `MemFs` opens with a tree,
//! keeps a record of its calls, fails at the calls that it is told to, and gives the tree that stands now.
#![tactic(auto)]

mod calls;
mod error;
mod history;
mod laws;
mod mem_fs;
mod mem_sink;
mod opening;
mod tree;

pub use error::{ImageError, TreeError};
pub use fs_state::Pick;
pub use history::Failing;
pub use laws::{entries_stand, faults_come_in_order};
pub use mem_fs::MemFs;
pub use mem_sink::MemSink;
pub use tree::{Entry, Tree};

//! Maps by path and by inode over `BTreeMap`, which contracts see as finite maps: the fields of a file system in memory.
#![tactic(auto)]

mod inode_map;
mod path_map;

pub use inode_map::InodeMap;
pub use path_map::PathMap;

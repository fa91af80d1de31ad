//! What the product takes a file system to be: names, paths and nodes; the state of a file system now and on the disk;
//! what each call may do to it and answer; what a crash may leave of it; and the traits `Fs` and `Sink`, which every
//! crate above is handed. A contract above speaks of the trail of states that `Fs` tells.
#![tactic(auto)]

mod change;
mod effect;
mod error;
mod fs;
mod name;
mod node;
mod path;
mod sink;
mod text;

pub use change::NameChange;
pub use effect::Effect;
pub use error::{FsError, PathError, SinkError};
pub use fs::Fs;
pub use name::Name;
pub use node::{Identity, Kind, Node, Stat};
pub use path::Path;
pub use sink::Sink;
pub use text::{Bytes, Text};

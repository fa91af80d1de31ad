//! What every part of the upgrade does with files, over any file system. Where its trail is told, each contract says
//! what a call gives, what it leaves as it was in every state on the way, and when each error comes.
#![tactic(auto)]

mod children;
mod clears;
mod copies;
mod identities;
mod makes;
mod reads;
mod syncs;
mod walks;

pub use clears::clear_dir;
pub use copies::copy_file;
pub use identities::same_inode;
pub use makes::make_file;
pub use reads::read_all;
pub use syncs::sync_tree;
pub use walks::{Look, walk, walk_with};

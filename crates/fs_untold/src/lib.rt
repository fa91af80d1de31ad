//! A file system in memory whose trail is not told, and which finds nothing from a call on: for tests of what is promised
//! where no state is known.
#![tactic(auto)]

mod untold;

pub use untold::Untold;

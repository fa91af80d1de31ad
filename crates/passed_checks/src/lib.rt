//! What follows where the checks of an upgrade find nothing: the facts that its steps need, in the words of the crates that take
//! these steps. Nothing is computed.
#![tactic(auto)]

mod begins;
mod controls;
mod directories;
mod disabling_facts;
mod finds;
mod tablespaces;

pub use begins::passed_can_upgrade;
pub use controls::stopped_clusters_law;
pub use directories::{missing_dirs_law, unused_cluster_law};
pub use disabling_facts::disabling_law;
pub use finds::found_nothing_law;
pub use tablespaces::tablespaces_law;

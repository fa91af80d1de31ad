//! What follows where the checks of an upgrade find nothing, for its result to be an upgraded cluster. Nothing is computed.
#![tactic(auto)]

mod upgradable;

pub use upgradable::{passed_has_own_files, passed_is_upgradable};

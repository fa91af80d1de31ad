//! The devices of the directories that a plan speaks of. Nothing is computed: each contract is a fact about definitions.
#![tactic(auto)]

mod devices;

pub use devices::{plans_have_one_device, runs_keep_devices};

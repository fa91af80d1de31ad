//! The plan of a transfer: which files of the old cluster get which names in the new one. The layers above use what a
//! state needs to have for a plan to be carried out (`CanBeCarried`), that other calls leave this (`plans_stay`), and
//! that a name is free once what it replaces was removed (`remove_replaced`).
#![tactic(auto)]

mod laws;
mod plan;
mod replaced;

pub use laws::{plans_stay, targets_alone_change, targets_are_apart};
pub use plan::{Plan, PlanItem};
pub use replaced::remove_replaced;

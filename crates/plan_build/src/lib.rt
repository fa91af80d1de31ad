//! The plan of a transfer: `plan_of` looks which files of the forks and segments of a map's relations are carried, and which
//! new names stand already. The layers above use when a state has what a plan needs (`plannable_law`), that the plan of
//! such a state can be carried out there (`plans_can_be_carried`), what it stays the plan of (`plans_hold`), and that its
//! items are the carried files of all relations (`plans_carry`).
#![tactic(auto)]

mod laws;
mod plans;
mod segments;

pub use crate::laws::{plannable_law, plans_can_be_carried, plans_carry, plans_hold};
pub use crate::plans::plan_of;

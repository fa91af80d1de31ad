//! Why an upgrade is refused: the conditions on two clusters, with their order, and what a check answers.
#![tactic(auto)]

mod answer;
mod controls;
mod laws;
mod refusal;

pub use answer::{Change, CheckError, Passed};
pub use controls::{controls_come_first, lifted};
pub use laws::{conditions_are_ordered, first_found_is_first};
pub use refusal::Refusal;

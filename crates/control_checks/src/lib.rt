//! The conditions of an upgrade on the two data directories, their releases and their control files. `check_controls` tests
//! them in their order, first to last, and stops at the first that holds; it reads alone, and hands on the control records
//! that it read.
#![tactic(auto)]

mod check;
mod clusters;
mod controls;
mod fields;
mod looks;
mod paths;
mod records;
mod refusal;
mod stop;

pub use check::check_controls;
pub use records::{Controls, ReadControl};
pub use refusal::{ControlField, ControlRefusal};
pub use stop::CheckStop;

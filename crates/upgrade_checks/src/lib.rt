//! All checks of an upgrade. `check` tests the conditions of each refusal in their order, first to last, stops at the first
//! that holds, and hands on what was read.
#![tactic(auto)]

mod catalogs;
mod checks;
mod controls;
mod laws;
mod stop;
mod trees;

pub use checks::check;
pub use laws::{first_found_is_first, passing_catalogs_are_fresh};

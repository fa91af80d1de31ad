//! The rows of a table, from the files of its cluster: `rows_of` gives those that a snapshot sees, exactly as the definitions
//! of `cluster_meaning` say over the state at its entry, and when each error comes. No state is changed.
#![tactic(auto)]

mod control;
mod error;
mod found;
mod rows;
mod tables;
mod toast;

pub use crate::error::ReadError;
pub use crate::rows::rows_of;
pub use block_rows::{Row, Rows, Values};

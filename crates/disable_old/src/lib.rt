//! Disabling the old cluster: its control file is renamed, and the rename is put on the disk. Only then may files of it
//! get second names in the new cluster; `LinkPermit` says so.
#![tactic(auto)]

mod disabling;
mod permit;

pub use disabling::disable;
pub use permit::{ControlPaths, LinkPermit, paths};

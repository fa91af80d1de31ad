//! Carrying over what the old cluster knows of every transaction: the files of transaction status and multixacts, and
//! the counters of the control file. The layers above use the exact results of the calls, the calls that are made, that
//! each state on the way keeps the crash invariant, and that what was carried stays.
#![tactic(auto)]

mod counters;
mod dirs;
mod laws;
mod names;
mod status;

pub use counters::set_counters;
pub use dirs::carry_dir;
pub use laws::{
    carried_since_before, carried_stays_carried, carried_stays_under_counters,
    carrying_keeps_needs, carrying_leaves_files, carrying_stays_within, status_dirs_are_below,
    status_is_equal,
};
pub use status::carry_status;

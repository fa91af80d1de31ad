//! What holds of every state of an upgrade, phase by phase: what the steps need of the state that it opens in, and the laws
//! by which the calls of each step keep the fact of the phases (`Held`), whatever they answer.
#![tactic(auto)]

mod crashes;
mod directories;
mod disabling;
mod finishing;
mod keeping;
mod making;
mod opening;
mod plans;
mod restoring;
mod status;
mod transfer;

pub use crashes::crashes_are_safe;
pub use directories::directories_stay;
pub use disabling::{disabling_gives_permit, disabling_keeps_held, rename_stays_free};
pub use finishing::{finishing_is_marked, last_phase_is_ready, last_sync_reaches_all};
pub use keeping::{restoring_leaves_status, roots_are_apart, status_leaves_head};
pub use making::making_keeps_held;
pub use opening::opening_is_held;
pub use plans::{disabling_spares_plans, plans_stand_in_places};
pub use restoring::restoring_keeps_held;
pub use status::status_keeps_held;
pub use transfer::transfer_keeps_held;

//! What holds of every state of an upgrade, so that a crash at any moment leaves the old cluster as it was.
//!
//! The layers above say of each function which calls it may make (`Goes` with a table of calls). The laws here lead from
//! there to every state on the way (`Sound`, `Lacks`, `Within`, `Tracked`, `NeedsOnly`, `AllButMark`) and to every crash.
#![tactic(auto)]

mod disk_laws;
mod lasting_laws;
mod laws;
mod mark_laws;
mod place_laws;
mod run_laws;

pub use disk_laws::{
    all_synced_is_settled, runs_keep_track, runs_need_inside, settled_start_is_tracked,
};
pub use lasting_laws::{rename_stays_on_disk, stays_off_disk};
pub use laws::{
    calls_keep_sound, images_are_safe, lacks_stays, moved_stays_moved, rename_goes_on,
    settled_start_is_sound, sync_gives_permit,
};
pub use mark_laws::{mark_is_made, mark_leaves_all};
pub use place_laws::{places_are_held, places_are_known, places_stand_apart};
pub use run_laws::{
    rename_runs, runs_join, runs_keep_lack, runs_keep_sound, runs_keep_within, sound_runs_are_safe,
};

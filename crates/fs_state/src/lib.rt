//! The state of a file system as data: `State`, which effects change in place; what each call would do in a state, or why
//! it is refused; and the images that a crash may leave. The contracts are those of the definitions of `fs_model`.
#![tactic(auto)]

mod action;
pub mod changing;
mod contents;
mod image;
mod laws;
mod names;
mod pick;
pub mod reading;
mod refusing;
mod state;

pub use action::Action;
pub use laws::{
    calls_keep_well_formed, every_image_has_a_pick, images_are_settled, images_are_well_formed,
};
pub use pick::Pick;
pub use state::State;

//! What the upgrade takes a catalog server to be: a server reads the catalog of a cluster, dumps it as a text, and replays
//! such a text. The layers above rest on the laws of the trait `Server`.
#![tactic(auto)]

mod error;
mod laws;
mod relation;
mod server;

pub use error::ServerError;
pub use laws::{
    listed_files_are_main_files, needed_directories_give_room, reading_rests_on_profile,
    replay_has_frame, replay_keeps_sound, replay_stays_within, unused_clusters_have_room,
};
pub use relation::Relation;
pub use server::Server;

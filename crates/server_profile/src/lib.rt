//! The shipped catalog server: the catalog of a cluster is the text `pg_profile/catalog.sql`. The layers above use it
//! through the trait `Server`, which it is proved to keep.
#![tactic(auto)]

mod held;
mod known;
mod names;
mod paths;
mod plan;
mod reading;
mod relations;
mod replaying;
mod server;

pub use server::ProfileServer;

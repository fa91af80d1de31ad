//! A small pair of clusters, as files of a real release have their bytes: an old one with a database `app` that has a
//! table of two rows, and a new one as `initdb` leaves it. For tests and for the sample of the README; a server does not
//! start on them.
#![tactic(auto)]

mod bytes;
mod pair;

pub use bytes::{control_file, page_of_two_rows, seal_control_file};
pub use pair::{CATALOG, make_pair};

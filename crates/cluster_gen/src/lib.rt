//! Large pairs of clusters from a number, for self-tests, tests and measurements: an old one with a database `app` of that
//! many tables, and a new one as `initdb` leaves it. `make` gives exactly the files that the definitions of this crate
//! say; a server does not start on them.
#![tactic(auto)]

mod catalogs;
mod control;
mod error;
mod fixed;
mod laws;
mod numbers;
mod page;
mod pair;
mod parts;
mod tables;
mod tree;

pub use catalogs::{new_catalog, old_catalog};
pub use control::{control_file, new_counters, old_counters};
pub use error::GenError;
pub use laws::{control_files_are_read, live_rows_are_counted, pages_are_read, rows_are_read};
pub use page::table_file;
pub use pair::make;

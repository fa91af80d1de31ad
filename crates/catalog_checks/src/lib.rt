//! The conditions of an upgrade on the catalogs of the two clusters: limits, install users, connections, types of columns,
//! and that the new cluster is a fresh one. Each is a question over catalogs that is exact by a definition, changes nothing
//! and takes no memory.
#![tactic(auto)]

mod clusters;
mod columns;
mod laws;
mod limits;
mod starting;

pub use clusters::{has_more_roles, install_users_differ, wrong_connections};
pub use columns::{ColumnPlace, first_acl_column, first_reg_column};
pub use laws::first_is_first;
pub use limits::is_too_large;
pub use starting::is_started;

//! Which files of the old cluster go where in the new one. `build` pairs the relations of two catalogs by their OIDs, or
//! tells the first that has no like.
#![tactic(auto)]

mod building;
mod directories;
mod entries;
mod error;
mod faults;
mod laws;
mod map;
mod named;
mod relations;

pub use crate::building::build;
pub use crate::error::MapError;
pub use crate::laws::equal_catalogs_law;
pub use crate::map::{FileMap, MapEntry};

//! The catalog of a cluster: its roles, tablespaces and databases with what they hold. Each object is added by a call
//! that refuses what a cluster can't hold, with the first cause; a catalog is valid at all times (`Catalog::bootstrap`).
#![tactic(auto)]

mod adders;
mod additions;
mod causes;
mod cluster;
mod columns_of;
mod databases;
mod enum_places;
mod enum_types;
mod enums;
mod error;
mod index_places;
mod indexes;
mod labels;
mod lists;
mod lookups;
mod names;
mod owners;
mod references;
mod refusals;
mod relations;
mod same;
mod schemas;
mod sequence_places;
mod sequences;
mod spaces;
mod table_places;
mod tables;
mod types;

pub use cluster::Catalog;
pub use databases::Database;
pub use enums::{EnumType, Label, Labels};
pub use error::CatalogError;
pub use names::is_name;
pub use owners::{Role, Schema, Tablespace};
pub use relations::{Column, Columns, Index, Keys, Sequence, Table, Toast};
pub use types::{BaseType, ColumnKind};

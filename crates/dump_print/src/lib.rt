//! The canonical text of a catalog, written at the end of a vector: one line for each statement, straight from the
//! catalog's objects.
#![tactic(auto)]

mod columns;
mod contents;
mod objects;
mod parts;
mod statements;
mod tables;
mod whole;

pub use whole::put_catalog;

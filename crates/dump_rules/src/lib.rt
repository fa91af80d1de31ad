//! The rules of a catalog text: what each statement makes of a catalog, or why it is refused.
//!
//! A statement speaks of names; the numbers of what it makes were set by `SET NEXT` before, and what it makes goes into the
//! database that `CONNECT` named. Both are kept in a `Session`. `specs/Rules.antt` has the rules.
#![tactic(auto)]

mod cluster_objects;
mod columns;
mod database_objects;
mod indexes;
mod named;
mod numbers;
mod sequences;
mod sessions;
mod statements;
mod tables;

pub use numbers::{Numbers, Session};
pub use statements::apply;

//! Where the files of relations stand, and which of them an upgrade carries: a relation's forks, their segments, and the
//! relations of a catalog. `segment_path` gives the path that the definition of that name says, so that all who read,
//! list, copy or link these files mean the same ones.
#![tactic(auto)]

mod laws;
mod relation;
mod site;

pub use crate::laws::carried_again_law;
pub use crate::relation::{Fork, Relation};
pub use crate::site::{ClusterSite, file_name, relation_dir, segment_path};

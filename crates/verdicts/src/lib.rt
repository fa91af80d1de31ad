//! What a crash or an end of an upgrade left of two clusters: the verdict of a report.
#![tactic(auto)]

mod laws;
mod verdict;

pub use laws::{
    crashes_have_safe_verdicts, crashes_keep_known_links, naming_back_restores,
    unshared_clusters_are_apart, verdicts_are_one,
};
pub use verdict::{Verdict, verdict_of};

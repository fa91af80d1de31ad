//! A law over catalogs: no object of a valid catalog is refused against those before it.
#![tactic(auto)]

mod laws;

pub use laws::valid_is_unrefused;

//! What an upgraded cluster is, and that the steps of an upgrade, one after the other, give it. The contracts of the steps
//! say what each of them leaves; `upgraded_law` puts them together, so that the layer above cites it alone.
#![tactic(auto)]

mod laws;

pub use crate::laws::{mark_is_own, upgraded_law};

//! Which heap tuples a snapshot sees. The layers above use `visible`, which is exact on every header, every snapshot and
//! every look-up: the answer rests on these values alone.
#![tactic(auto)]

mod laws;
mod lookup;
mod rules;
mod seen;
mod snapshot;

pub use laws::{frozen_law, lookup_law, unknown_law};
pub use lookup::Lookup;
pub use rules::visible;
pub use seen::Seen;
pub use snapshot::{Snapshot, SnapshotError};

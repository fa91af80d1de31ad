//! The phases of an upgrade as types: each step takes a phase and gives the next one, so that none can be left out or come
//! twice. Each phase has a fact about the states since the upgrade was opened; a step asks for the fact of its phase and
//! gives that of the next.
#![tactic(auto)]

mod checked;
mod disabled;
mod error;
mod faults;
mod finished;
mod places;
mod prepared;
mod preparing;
mod restored;
mod statused;
mod transferred;

pub use checked::Checked;
pub use disabled::Disabled;
pub use error::{PhaseError, PhaseFault};
pub use finished::Finished;
pub use restored::Restored;
pub use statused::Statused;
pub use transferred::Transferred;

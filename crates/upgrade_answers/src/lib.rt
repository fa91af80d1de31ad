//! What an upgrade answers, the exit status that tells it, and the lines that are printed for it. `put_lines` puts exactly
//! the lines of an answer, or a first part of them and tells that the sink failed or lacked memory; `Outcome::code` is the
//! exit status.
#![tactic(auto)]

mod answer;
mod lines;
mod parts;
mod reasons;
mod texts;

pub use answer::{Answer, Outcome, Printed, Verdict};
pub use lines::put_lines;

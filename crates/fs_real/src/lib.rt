//! The real disk and the real standard output, as the traits that every other crate is handed: `RealFs` keeps `Fs`
//! and `OutSink` keeps `Sink`, both untold, so that each error that they answer has its cause in a count that rose.
#![tactic(auto)]

mod changes;
mod disk;
mod error;
mod kept;
mod looks;
mod numbers;
mod out_sink;
mod passed;
mod place;
mod real_fs;
mod streams;
mod tally;

pub use out_sink::OutSink;
pub use real_fs::RealFs;

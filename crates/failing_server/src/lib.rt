//! A catalog server for tests: the shipped one, which fails at a stated call, and keeps what was replayed.
#![tactic(auto)]

mod server;

pub use server::FailingServer;

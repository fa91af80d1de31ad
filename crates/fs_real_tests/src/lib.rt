//! Tests of the real disk and of the sink: `fs_real` is handed a disk that answers by a script, so that each call is
//! seen to ask the operating system for what it should, in order; and it is run once on the real disk.
#![tactic(auto)]

#[cfg(test)]
mod calls;
#[cfg(test)]
mod cases;
#[cfg(test)]
mod failures;
#[cfg(test)]
mod opened;
#[cfg(test)]
mod real_edge;
#[cfg(test)]
mod script;
#[cfg(test)]
mod scripted_disk;
#[cfg(test)]
mod tests;

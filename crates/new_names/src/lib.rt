//! Making a list of names in a file system: directories, files and symbolic links. The layers above rest on the calls
//! that are made (`MakesListed`), on the frame `MakesOnly`, which every state on the way has by a law, and on what
//! stands in the end.
#![tactic(auto)]

mod laws;
mod make;
mod names;

pub use laws::{
    calls_make_only, calls_stay_within, reading_makes_nothing, runs_join, runs_make_only,
};
pub use make::{make_names, remake_file};
pub use names::{NewName, NewNode};

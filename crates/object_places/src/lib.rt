//! Where in a list an object stands that has a key: a number, a number of a tablespace, or a name in a schema. A list
//! keeps such places beside its objects; `Finds` says that they lead to each of them.
#![tactic(auto)]

mod file_places;
mod name_places;
mod number_places;
mod objects;
mod text_places;

pub use file_places::FilePlaces;
pub use name_places::NamePlaces;
pub use number_places::NumberPlaces;
pub use objects::object_at;
pub use text_places::TextPlaces;

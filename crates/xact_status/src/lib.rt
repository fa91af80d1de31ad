//! The commit log of PostgreSQL, `pg_xact`: what became of a transaction, by its id. The layers above use `known_of`,
//! which is exact on every set of segments and every window of ids: the answer rests on these values alone.
#![tactic(auto)]

mod error;
mod known;
mod laws;
mod layout;
mod place;
mod segments;
mod status;
mod window;

pub use error::SegmentsError;
pub use known::{Known, known_of};
pub use laws::{place_law, precedes_law, window_law};
pub use layout::{
    BITS_PER_XACT, FIRST_NORMAL_XID, PAGE_SIZE, PAGES_PER_SEGMENT, XACTS_PER_BYTE, XACTS_PER_PAGE,
};
pub use place::{Place, place_of};
pub use segments::Segments;
pub use status::{Status, status_in};
pub use window::{Window, precedes};

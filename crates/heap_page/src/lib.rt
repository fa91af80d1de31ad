//! Pages of a PostgreSQL heap and bits of its visibility map, read where they lie: nothing is
//! copied, and no call takes memory. `Page::over` accepts the 8192 bytes of a block or says what is
//! wrong with them; from then on a page gives its lines without an error. The definitions that the
//! contracts cite, as `page_error` and `items_of`, are functions of the bytes alone.
#![tactic(auto)]

mod error;
mod items;
mod laws;
mod layout;
mod line;
mod map;
mod numbers;
mod page;

pub use crate::error::PageError;
pub use crate::items::{Item, Items};
pub use crate::laws::{items_law, layout_law, map_law, pointer_law};
pub use crate::layout::{
    LINE_POINTER_SIZE, LOWER_AT, MAP_BLOCKS_PER_BYTE, MAP_BLOCKS_PER_PAGE, PAGE_HEADER_SIZE,
    PAGE_SIZE, SIZE_VERSION, SIZE_VERSION_AT, SPECIAL_AT, UPPER_AT,
};
pub use crate::line::{LinePointer, LineState};
pub use crate::map::map_bits;
pub use crate::page::Page;

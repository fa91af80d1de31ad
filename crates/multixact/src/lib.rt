//! PostgreSQL's multixact ids, `pg_multixact`: which transactions lock or updated a row together. The layers above
//! use `updater`, which is exact on every set of segments and every set of counters: the answer rests on these values
//! alone.
#![tactic(auto)]

mod laws;
mod layout;
mod member;
mod offset;
mod place;
mod update;

pub use laws::{member_place_law, offset_place_law, updater_law, window_law};
pub use layout::{
    GROUP_SIZE, MEMBERS_PER_GROUP, MEMBERS_PER_PAGE, NO_KEY_UPDATE_STATUS, OFFSET_SIZE,
    OFFSETS_PER_PAGE, UPDATE_STATUS, XID_SIZE,
};
pub use member::{Member, member_in};
pub use place::{MemberPlace, member_place, offset_place};
pub use update::updater;

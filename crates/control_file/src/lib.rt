//! PostgreSQL's `PG_VERSION` and `global/pg_control`: the two releases, the control record with its CRC-32C, and the
//! change of its counters. The layers above use `read_control` and `write_counters`, which are exact on every list
//! of bytes.

#![tactic(auto)]

mod crc;
mod crc_table;
mod job;
mod modes;
mod places;
mod reading;
mod records;
mod releases;
mod writing;

pub use crc::{crc_is_the_only_remainder, crc32c};
pub use job::Job;
pub use modes::{Mode, Side};
pub use reading::{control_in_is_exact, control_in_rests_on_its_record, read_control};
pub use records::{Control, ControlError, Counters, RECORD_BYTES};
pub use releases::{Release, read_version};
pub use writing::write_counters;

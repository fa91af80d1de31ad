//! The checks of an upgrade that look at the files of the old cluster's catalog: the directories of its tablespaces, the
//! files of its relations, and the devices that these stand on. Each answers what it finds, exactly where the file system
//! tells its states, and changes none of them. Each directory is looked at once, and so is each name in it at most.
#![tactic(auto)]

mod devices;
mod files;
mod places;
mod tablespaces;

pub use devices::device_differs;
pub use files::missing_file;
pub use tablespaces::tablespace_dir;

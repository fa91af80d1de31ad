//! The checks of an upgrade that look at the directories of both clusters. Each answers what it finds, exactly where the
//! file system tells its states, and changes none of them. A path where nothing stands, or something else, is a finding
//! here and no error.
#![tactic(auto)]

mod least;
mod looks;
mod missing;
mod new_dirs;
mod prepared;

pub use least::lesser;
pub use looks::{is_dir, is_file, kind_at, names_at, stat_at, target_at};
pub use missing::missing_dir;
pub use new_dirs::{NewDir, used_path};
pub use prepared::{has_disabled_control, has_prepared};

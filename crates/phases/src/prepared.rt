ghost use Rattle.std.specs.Prelude.{◌<◌, length};

use disable_old::ControlPaths;
use last_sync::Places;
use transfer_plan::Plan;

/// What the later phases need.
#[derive(Drop)]
pub(crate) struct Prepared {
    /// The relation files with their new names.
    pub plan: Plan,
    /// The paths of the old cluster's control file.
    pub control: ControlPaths,
    /// Where the upgrade ends.
    pub places: Places,
    /// What files are copied through.
    pub buffer: Vec<u8>,
    pub ghost filled: { 0 < length buffer.items },
}

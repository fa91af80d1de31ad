// Directories without those that are under others of them.
ghost use Rattle.shared_inodes.specs.Regions.{Cover};

use fs_model::Path;

/// Puts the directories in ascending order, and leaves out each that is under another, so that no name is walked twice.
pub(crate) fn keep_outermost(tops: &mut Vec<Path>)
    ensures { Cover tops.old.items tops.new.items }
{
    tops.sort_unstable();
    tops.dedup_by(|top, kept| top.is_under(kept));
}

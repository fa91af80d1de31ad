ghost use Rattle.std.specs.Prelude.{◌≡◌};
ghost use Rattle.fs_model.specs.Names.{parent};

use fs_model::Path;

/// Where an upgrade ends.
#[derive(Drop)]
pub struct Places {
    /// The directories that the new cluster lives in: its root and, at each tablespace's location, its release's directory.
    pub tops: Vec<Path>,
    /// The locations, which hold these directories' names.
    pub holders: Vec<Path>,
    /// The file that says that all is done.
    pub mark: Path,
    /// The directory that it stands in.
    pub mark_dir: Path,
    pub ghost together: { mark_dir ≡ parent mark },
}

ghost use Rattle.std.specs.Prelude.{◌≡◌};

use fs_model::Path;
use std::marker::Model;

/// A relation that both clusters have.
#[derive(Drop)]
pub struct MapEntry {
    pub oid: u32,
    /// The directory of its files in the old cluster.
    pub from_dir: Path,
    /// The directory of its files in the new cluster.
    pub to_dir: Path,
    /// The file number, `relfilenode` of `pg_class`: the name of its files in both.
    pub file: u32,
}

/// The relations that two clusters share, in the order of the old catalog (`gen_db_file_maps` of
/// `src/bin/pg_upgrade/info.c`). A contract sees them as a list.
#[derive(Drop)]
pub struct FileMap {
    entries: Vec<MapEntry>,
}

impl Model for FileMap {
    ghost use Rattle.std.specs.Prelude.{List};
    ghost use Rattle.relation_map.specs.declared.map.MapEntry.{MapEntry};

    ghost Value = { List MapEntry };

    ghost view = { λ a. a.entries.items };
}

impl FileMap {
    // Takes no memory.
    pub(crate) fn new(entries: Vec<MapEntry>) -> FileMap
        ensures { result ≡ entries.items }
    {
        FileMap { entries }
    }

    /// Lends the entries. Takes no memory.
    pub fn entries(&self) -> &[MapEntry]
        ensures { result.now ≡ self.now }
    {
        &self.entries
    }
}

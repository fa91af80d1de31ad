// Where the indexes of a database stand, by their OIDs and files. Their names are in the schemas of their tables, so
// that the database keeps these.
ghost use Rattle.std.specs.Prelude.{◌≡◌, ℕ, ◌&&◌, true, false, None, Some, OnOk, nat_eq};
ghost use Rattle.object_places.specs.Places.{number_place, file_place};

use crate::relations::Index;
use object_places::{FilePlaces, NumberPlaces};
use std::alloc::{AllocError, Global};

#[derive(Drop)]
pub(crate) struct IndexPlaces {
    pub(crate) oids: NumberPlaces,
    pub(crate) files: FilePlaces,
}

impl IndexPlaces {
    // Takes no memory.
    pub(crate) fn new(alloc: Global) -> IndexPlaces {
        IndexPlaces {
            oids: NumberPlaces::new(alloc),
            files: FilePlaces::new(alloc),
        }
    }

    // Notes the place of an index. Other keys than its own lead where they did, also where memory lacked.
    pub(crate) fn put(&mut self, index: &Index, place: usize) -> Result<(), AllocError>
        ensures oids { (k : ℕ) → nat_eq k index.now.oid ≡ false → number_place self.new.oids k ≡ number_place self.old.oids k }
        ensures files { (t k : ℕ) → (nat_eq t index.now.tablespace && nat_eq k index.now.file) ≡ false → file_place self.new.files t k ≡ file_place self.old.files t k }
        ensures oid_placed { OnOk result ((k : ℕ) → nat_eq k index.now.oid ≡ true → number_place self.new.oids k ≡ Some place) }
        ensures file_placed { OnOk result ((t k : ℕ) → (nat_eq t index.now.tablespace && nat_eq k index.now.file) ≡ true → file_place self.new.files t k ≡ Some place) }
    {
        self.oids.put(index.oid, place)?;
        self.files.put(index.tablespace, index.file, place)
    }
}

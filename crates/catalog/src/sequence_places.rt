// Where the sequences of a database stand, by what no two of them may share.
ghost use Rattle.std.specs.Prelude.{◌≡◌, ℕ, List, ◌&&◌, true, false, None, Some, OnOk, nat_eq, bytes_eq};
ghost use Rattle.object_places.specs.Places.{number_place, name_place, file_place};
ghost use Rattle.catalog.specs.Cluster.{default_tablespace};

use crate::lists::DEFAULT_TABLESPACE;
use crate::relations::Sequence;
use object_places::{FilePlaces, NamePlaces, NumberPlaces};
use std::alloc::{AllocError, Global};

#[derive(Drop)]
pub(crate) struct SequencePlaces {
    pub(crate) oids: NumberPlaces,
    pub(crate) names: NamePlaces,
    pub(crate) files: FilePlaces,
}

impl SequencePlaces {
    // Takes no memory.
    pub(crate) fn new(alloc: Global) -> SequencePlaces {
        SequencePlaces {
            oids: NumberPlaces::new(alloc),
            names: NamePlaces::new(alloc),
            files: FilePlaces::new(alloc),
        }
    }

    // Notes the place of a sequence. Other keys than its own lead where they did, also where memory lacked.
    pub(crate) fn put(&mut self, sequence: &Sequence, place: usize) -> Result<(), AllocError>
        ensures oids { (k : ℕ) → nat_eq k sequence.now.oid ≡ false → number_place self.new.oids k ≡ number_place self.old.oids k }
        ensures names { (s k : List ℕ) → (bytes_eq s sequence.now.schema && bytes_eq k sequence.now.name) ≡ false → name_place self.new.names s k ≡ name_place self.old.names s k }
        ensures files { (t k : ℕ) → (nat_eq t default_tablespace && nat_eq k sequence.now.file) ≡ false → file_place self.new.files t k ≡ file_place self.old.files t k }
        ensures oid_placed { OnOk result ((k : ℕ) → nat_eq k sequence.now.oid ≡ true → number_place self.new.oids k ≡ Some place) }
        ensures name_placed { OnOk result ((s k : List ℕ) → (bytes_eq s sequence.now.schema && bytes_eq k sequence.now.name) ≡ true → name_place self.new.names s k ≡ Some place) }
        ensures file_placed { OnOk result ((t k : ℕ) → (nat_eq t default_tablespace && nat_eq k sequence.now.file) ≡ true → file_place self.new.files t k ≡ Some place) }
    {
        self.oids.put(sequence.oid, place)?;
        self.names.put(&sequence.schema, &sequence.name, place)?;
        self.files.put(DEFAULT_TABLESPACE, sequence.file, place)
    }
}

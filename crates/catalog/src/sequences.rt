// The sequences of a database, in the order of their additions.
ghost use Rattle.std.specs.Prelude.{◌≡◌, ◌++◌, ◌∷◌, [], nat_eq, OnOk, OnErr, IfErr};
ghost use Rattle.std.specs.List.{list_any};
ghost use Rattle.catalog.specs.Spaces.{sequence_name, same_name, same_place, place_in, sequence_place};
ghost use Rattle.catalog.specs.Known.{SequenceIsFree};

use crate::error::CatalogError;
use crate::lists::{is_named, sequence_has_file};
use crate::relations::Sequence;
use crate::sequence_places::SequencePlaces;
use fs_model::Text;
use object_places::object_at;
use std::alloc::Global;
use std::marker::Model;

// A list of sequences, in which one is found by what no two may share. A contract sees it as the list.
#[derive(Drop)]
pub(crate) struct Sequences {
    items: Vec<Sequence>,
    places: SequencePlaces,
}

impl Model for Sequences {
    ghost use Rattle.std.specs.Prelude.{List};
    ghost use Rattle.catalog.specs.declared.relations.Sequence.{Sequence};

    ghost Value = { List Sequence };

    ghost use Rattle.catalog.specs.Known.{SequencesKnown};

    ghost view = { λ a. a.items.items };

    ghost invariant = { λ a. SequencesKnown a.items.items a.places };
}

impl Sequences {
    // Takes no memory.
    pub(crate) fn new(alloc: Global) -> Sequences
        ensures { result ≡ [] }
    {
        Sequences {
            items: Vec::new(alloc),
            places: SequencePlaces::new(alloc),
        }
    }

    pub(crate) fn items(&self) -> &[Sequence]
        ensures { result.now ≡ self.now }
    {
        &self.items
    }

    // Adds a sequence that shares nothing with those that stand.
    pub(crate) fn push(&mut self, sequence: Sequence) -> Result<(), CatalogError>
        requires { SequenceIsFree self.old sequence }
        ensures ok { OnOk result (self.new ≡ self.old ++ sequence ∷ []) }
        ensures error { IfErr result (λ e. e ≡ CatalogError.OutOfMemory) }
        ensures unchanged { OnErr result (self.new ≡ self.old) }
    {
        self.places.put(&sequence, self.items.len())?;
        self.items.push(sequence)?;
        Ok(())
    }

    pub(crate) fn have_oid(&self, oid: u32) -> bool
        ensures { result ≡ list_any (λ s. nat_eq oid s.oid) self.now }
    {
        match object_at(&self.items, self.places.oids.get(oid)) {
            Some(sequence) => oid == sequence.oid,
            None => false,
        }
    }

    pub(crate) fn have_name(&self, schema: &Text, name: &Text) -> bool
        ensures { result ≡ list_any (λ s. same_name (record { schema = schema.now; name = name.now }) (sequence_name s)) self.now }
    {
        match object_at(&self.items, self.places.names.get(schema, name)) {
            Some(sequence) => is_named(schema, name, &sequence.schema, &sequence.name),
            None => false,
        }
    }

    pub(crate) fn have_file(&self, tablespace: u32, number: u32) -> bool
        ensures { result ≡ list_any (λ s. same_place (place_in tablespace number) (sequence_place s)) self.now }
    {
        match object_at(&self.items, self.places.files.get(tablespace, number)) {
            Some(sequence) => sequence_has_file(sequence, tablespace, number),
            None => false,
        }
    }
}

// The indexes of a database, in the order of their additions.
ghost use Rattle.std.specs.Prelude.{◌≡◌, ◌++◌, ◌∷◌, [], nat_eq, OnOk, OnErr, IfErr};
ghost use Rattle.std.specs.List.{list_any};
ghost use Rattle.catalog.specs.Spaces.{same_place, place_in, index_place};
ghost use Rattle.catalog.specs.Known.{IndexIsFree};

use crate::error::CatalogError;
use crate::index_places::IndexPlaces;
use crate::lists::index_has_file;
use crate::relations::Index;
use object_places::object_at;
use std::alloc::Global;
use std::marker::Model;

// A list of indexes, in which one is found by its OID and its file. A contract sees it as the list.
#[derive(Drop)]
pub(crate) struct Indexes {
    items: Vec<Index>,
    places: IndexPlaces,
}

impl Model for Indexes {
    ghost use Rattle.std.specs.Prelude.{List};
    ghost use Rattle.catalog.specs.declared.relations.Index.{Index};

    ghost Value = { List Index };

    ghost use Rattle.catalog.specs.Known.{IndexesKnown};

    ghost view = { λ a. a.items.items };

    ghost invariant = { λ a. IndexesKnown a.items.items a.places };
}

impl Indexes {
    // Takes no memory.
    pub(crate) fn new(alloc: Global) -> Indexes
        ensures { result ≡ [] }
    {
        Indexes {
            items: Vec::new(alloc),
            places: IndexPlaces::new(alloc),
        }
    }

    pub(crate) fn items(&self) -> &[Index]
        ensures { result.now ≡ self.now }
    {
        &self.items
    }

    // Adds an index that shares neither its OID nor its file with those that stand.
    pub(crate) fn push(&mut self, index: Index) -> Result<(), CatalogError>
        requires { IndexIsFree self.old index }
        ensures ok { OnOk result (self.new ≡ self.old ++ index ∷ []) }
        ensures error { IfErr result (λ e. e ≡ CatalogError.OutOfMemory) }
        ensures unchanged { OnErr result (self.new ≡ self.old) }
    {
        self.places.put(&index, self.items.len())?;
        self.items.push(index)?;
        Ok(())
    }

    pub(crate) fn have_oid(&self, oid: u32) -> bool
        ensures { result ≡ list_any (λ i. nat_eq oid i.oid) self.now }
    {
        match object_at(&self.items, self.places.oids.get(oid)) {
            Some(index) => oid == index.oid,
            None => false,
        }
    }

    pub(crate) fn have_file(&self, tablespace: u32, number: u32) -> bool
        ensures { result ≡ list_any (λ i. same_place (place_in tablespace number) (index_place i)) self.now }
    {
        match object_at(&self.items, self.places.files.get(tablespace, number)) {
            Some(index) => index_has_file(index, tablespace, number),
            None => false,
        }
    }
}

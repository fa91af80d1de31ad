// The schemas of a database, in the order of their additions.
ghost use Rattle.std.specs.Prelude.{◌≡◌, ◌++◌, ◌∷◌, [], bytes_eq, OnOk, OnErr, IfErr};
ghost use Rattle.std.specs.List.{list_any};
ghost use Rattle.catalog.specs.Forms.{has_schema};
ghost use Rattle.catalog.specs.Known.{SchemaIsFree};

use crate::error::CatalogError;
use crate::lists::{has_name_of, is_name_of};
use crate::owners::Schema;
use fs_model::Text;
use object_places::{TextPlaces, object_at};
use std::alloc::Global;
use std::marker::Model;

// A list of schemas, in which one is found by its name. A contract sees it as the list.
#[derive(Drop)]
pub(crate) struct Schemas {
    items: Vec<Schema>,
    places: TextPlaces,
}

impl Model for Schemas {
    ghost use Rattle.std.specs.Prelude.{List};
    ghost use Rattle.catalog.specs.declared.owners.Schema.{Schema};

    ghost Value = { List Schema };

    ghost use Rattle.catalog.specs.Known.{SchemasKnown};

    ghost view = { λ a. a.items.items };

    ghost invariant = { λ a. SchemasKnown a.items.items a.places };
}

impl Schemas {
    // Takes no memory.
    pub(crate) fn new(alloc: Global) -> Schemas
        ensures { result ≡ [] }
    {
        Schemas {
            items: Vec::new(alloc),
            places: TextPlaces::new(alloc),
        }
    }

    pub(crate) fn items(&self) -> &[Schema]
        ensures { result.now ≡ self.now }
    {
        &self.items
    }

    // Adds a schema whose name none has.
    pub(crate) fn push(&mut self, schema: Schema) -> Result<(), CatalogError>
        requires { SchemaIsFree self.old schema }
        ensures ok { OnOk result (self.new ≡ self.old ++ schema ∷ []) }
        ensures error { IfErr result (λ e. e ≡ CatalogError.OutOfMemory) }
        ensures unchanged { OnErr result (self.new ≡ self.old) }
    {
        self.places.put(&schema.name, self.items.len())?;
        self.items.push(schema)?;
        Ok(())
    }

    // Whether there is a schema of that name.
    pub(crate) fn stand(&self, name: &Text) -> bool
        ensures { result ≡ has_schema self.now name.now }
    {
        match object_at(&self.items, self.places.get(name)) {
            Some(schema) => has_name_of(schema, name),
            None => false,
        }
    }

    // The same, of a name that is to be taken.
    pub(crate) fn have_name(&self, name: &Text) -> bool
        ensures { result ≡ list_any (λ s. bytes_eq name.now s.name) self.now }
    {
        match object_at(&self.items, self.places.get(name)) {
            Some(schema) => is_name_of(schema, name),
            None => false,
        }
    }
}

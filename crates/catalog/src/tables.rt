// The tables of a database, in the order of their additions.
ghost use Rattle.std.specs.Prelude.{◌≡◌, ◌≢◌, ◌++◌, ◌∷◌, [], length, nat_eq, OnOk, OnErr, IfErr, slice_get};
ghost use Rattle.std.specs.Option.{option_copied};
ghost use Rattle.std.specs.List.{list_any, find};
ghost use Rattle.catalog.specs.Spaces.{table_oids, table_has, table_name, same_name, same_place, place_in, table_places};
ghost use Rattle.catalog.specs.Lookups.{table_is};
ghost use Rattle.catalog.specs.Known.{TableIsFree};

use crate::error::CatalogError;
use crate::lists::{is_named, table_has_file, table_has_oid, table_is_of};
use crate::relations::Table;
use crate::table_places::TablePlaces;
use fs_model::Text;
use object_places::object_at;
use std::alloc::Global;
use std::marker::Model;

/// A list of tables, in which a table is found by what no two may share. A contract sees it as the list.
#[derive(Drop)]
pub(crate) struct Tables {
    items: Vec<Table>,
    places: TablePlaces,
}

impl Model for Tables {
    ghost use Rattle.std.specs.Prelude.{List};
    ghost use Rattle.catalog.specs.declared.relations.Table.{Table};

    ghost Value = { List Table };

    ghost use Rattle.catalog.specs.Known.{TablesKnown};

    ghost view = { λ a. a.items.items };

    ghost invariant = { λ a. TablesKnown a.items.items a.places };
}

impl Tables {
    // Takes no memory.
    pub(crate) fn new(alloc: Global) -> Tables
        ensures { result ≡ [] }
    {
        Tables {
            items: Vec::new(alloc),
            places: TablePlaces::new(alloc),
        }
    }

    pub(crate) fn items(&self) -> &[Table]
        ensures { result.now ≡ self.now }
    {
        &self.items
    }

    // Adds a table that shares nothing with those that stand.
    pub(crate) fn push(&mut self, table: Table) -> Result<(), CatalogError>
        requires { TableIsFree self.old table }
        ensures ok { OnOk result (self.new ≡ self.old ++ table ∷ []) }
        ensures error { IfErr result (λ e. e ≡ CatalogError.OutOfMemory) }
        ensures unchanged { OnErr result (self.new ≡ self.old) }
    {
        self.places.put(&table, self.items.len())?;
        self.items.push(table)?;
        Ok(())
    }

    pub(crate) fn of_oid(&self, oid: u32) -> Option<&Table>
        ensures { option_copied result ≡ find (table_has oid) self.now }
    {
        match object_at(&self.items, self.places.oids.get(oid)) {
            Some(table) if table_is_of(table, oid) => Some(table),
            _ => None,
        }
    }

    pub(crate) fn named(&self, schema: &Text, name: &Text) -> Option<&Table>
        ensures { option_copied result ≡ find (table_is schema.now name.now) self.now }
    {
        match object_at(&self.items, self.places.names.get(schema, name)) {
            Some(table) if is_named(schema, name, &table.schema, &table.name) => Some(table),
            _ => None,
        }
    }

    pub(crate) fn have_oid(&self, oid: u32) -> bool
        ensures { result ≡ list_any (λ t. list_any (nat_eq oid) (table_oids t)) self.now }
    {
        match object_at(&self.items, self.places.oids.get(oid)) {
            Some(table) => table_has_oid(table, oid),
            None => false,
        }
    }

    pub(crate) fn have_row_type(&self, oid: u32) -> bool
        ensures { result ≡ list_any (λ t. nat_eq oid t.row_type) self.now }
    {
        match object_at(&self.items, self.places.row_types.get(oid)) {
            Some(table) => oid == table.row_type,
            None => false,
        }
    }

    pub(crate) fn have_name(&self, schema: &Text, name: &Text) -> bool
        ensures { result ≡ list_any (λ t. same_name (record { schema = schema.now; name = name.now }) (table_name t)) self.now }
    {
        match object_at(&self.items, self.places.names.get(schema, name)) {
            Some(table) => is_named(schema, name, &table.schema, &table.name),
            None => false,
        }
    }

    pub(crate) fn have_file(&self, tablespace: u32, number: u32) -> bool
        ensures { result ≡ list_any (λ t. list_any (same_place (place_in tablespace number)) (table_places t)) self.now }
    {
        match object_at(&self.items, self.places.files.get(tablespace, number)) {
            Some(table) => table_has_file(table, tablespace, number),
            None => false,
        }
    }
}

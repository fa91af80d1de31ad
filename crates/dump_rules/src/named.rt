// The OIDs of what a statement names, and the database that it speaks of.
ghost use Rattle.std.specs.Prelude.{◌≡◌};
ghost use Rattle.std.specs.Option.{option_copied};
ghost use Rattle.dump_rules.specs.Rules.{role_oid, tablespace_oid, database_oid, enum_oid, table_oid, database_of, connected_database};

use catalog::{Catalog, Database};
use fs_model::Text;

pub(crate) fn role_oid(catalog: &Catalog, name: &Text) -> Option<u32>
    ensures { result ≡ role_oid catalog.now name.now }
{
    match catalog.role_named(name) {
        None => None,
        Some(role) => Some(role.oid),
    }
}

pub(crate) fn tablespace_oid(catalog: &Catalog, name: &Text) -> Option<u32>
    ensures { result ≡ tablespace_oid catalog.now name.now }
{
    match catalog.tablespace_named(name) {
        None => None,
        Some(tablespace) => Some(tablespace.oid),
    }
}

pub(crate) fn database_oid(catalog: &Catalog, name: &Text) -> Option<u32>
    ensures { result ≡ database_oid catalog.now name.now }
{
    match catalog.database_named(name) {
        None => None,
        Some(database) => Some(database.oid),
    }
}

// The database of the last CONNECT.
pub(crate) fn connected_database(catalog: &Catalog, connected: Option<u32>) -> Option<&Database>
    ensures { option_copied result ≡ database_of connected catalog.now }
{
    match connected {
        None => None,
        Some(oid) => catalog.database(oid),
    }
}

pub(crate) fn enum_oid(database: &Database, schema: &Text, name: &Text) -> Option<u32>
    ensures { result ≡ enum_oid database.now schema.now name.now }
{
    match database.enum_named(schema, name) {
        None => None,
        Some(kind) => Some(kind.oid),
    }
}

pub(crate) fn table_oid(database: &Database, schema: &Text, name: &Text) -> Option<u32>
    ensures { result ≡ table_oid database.now schema.now name.now }
{
    match database.table_named(schema, name) {
        None => None,
        Some(table) => Some(table.oid),
    }
}

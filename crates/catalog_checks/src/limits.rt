// The limits of a cluster that can be upgraded.
ghost use Rattle.std.specs.Prelude.{◌≡◌, ◌-◌, ◌^◌, ℕ, min, length};
ghost use Rattle.std.specs.List.{flat_map, list_any};
ghost use Rattle.fs_model.specs.PathText.{text_of};
ghost use Rattle.catalog.specs.Spaces.{table_oids, relation_oids};
ghost use Rattle.catalog_checks.specs.Limits.{relations_of, has_long_location, is_too_large};

use catalog::{Catalog, Database, Table};
use fs_model::Path;

const MOST_DATABASES: usize = 1_000;

const MOST_RELATIONS: usize = 100_000;

const MOST_LOCATION_BYTES: usize = 1_024;

// How many relations a table is: itself, and with a toast table that one and its index.
fn table_relations(table: &Table) -> usize
    ensures { result ≡ length (table_oids table.now) }
{
    match table.toast {
        None => 1,
        Some(_) => 3,
    }
}

// How many relations the tables of a database are. A number of 64 bits that is reached stands still.
fn relations_in_tables(database: &Database) -> usize
    ensures { result ≡ min (length (flat_map table_oids database.now.tables)) (2 ^ 64 - 1) }
{
    let mut relations: usize = 0;
    let count = database.table_count();
    for i in 0..count {
        match database.table_at(i) {
            None => return relations,
            Some(table) => relations = relations.saturating_add(table_relations(table)),
        }
    }
    relations
}

// How many relations a database has.
#[tactic(auto, using(crate::proofs::Counting::relation_count), unfolding(catalog::specs::Spaces::relation_oids))]
fn relations_in(database: &Database) -> usize
    ensures { result ≡ min (length (relation_oids database.now)) (2 ^ 64 - 1) }
{
    let tables = relations_in_tables(database);
    let indexes = database.index_count();
    let sequences = database.sequence_count();
    tables.saturating_add(indexes).saturating_add(sequences)
}

// How many relations a cluster has.
fn relations_of(catalog: &Catalog) -> usize
    ensures { result ≡ min (length (relations_of catalog.now)) (2 ^ 64 - 1) }
{
    let mut relations: usize = 0;
    let count = catalog.database_count();
    for i in 0..count {
        match catalog.database_at(i) {
            None => return relations,
            Some(database) => relations = relations.saturating_add(relations_in(database)),
        }
    }
    relations
}

// How many bytes the text of a path has.
fn text_length(path: &Path) -> usize
    ensures { result ≡ min (length (text_of path.now)) (2 ^ 64 - 1) }
{
    let names = path.names();
    if names.is_empty() {
        return 1;
    }
    let mut bytes: usize = 0;
    for name in names {
        bytes = bytes.saturating_add(1).saturating_add(name.text().len());
    }
    bytes
}

fn has_long_location(catalog: &Catalog) -> bool
    ensures { result ≡ has_long_location catalog.now }
{
    let count = catalog.tablespace_count();
    for i in 0..count {
        match catalog.tablespace_at(i) {
            None => return false,
            Some(tablespace) => {
                if text_length(&tablespace.location) > MOST_LOCATION_BYTES {
                    return true;
                }
            }
        }
    }
    false
}

/// Whether a cluster is too large to be upgraded: more than 1,000 databases, more than 100,000 relations (toast tables and
/// indexes are counted), or a tablespace whose location has more than 1,024 bytes.
pub fn is_too_large(catalog: &Catalog) -> bool
    ensures { result ≡ is_too_large catalog.now }
{
    let databases = catalog.database_count();
    let relations = relations_of(catalog);
    databases > MOST_DATABASES || relations > MOST_RELATIONS || has_long_location(catalog)
}

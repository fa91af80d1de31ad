// Whether a cluster is as it was made.
ghost use Rattle.std.specs.Prelude.{◌≡◌, ◌↔◌, ◌&&◌, IsTrue, slice_get};
ghost use Rattle.catalog.specs.Cluster.{started};
ghost use Rattle.catalog_checks.specs.Starting.{is_bare, is_bare_at, has_first_objects, has_first_databases};

use crate::clusters::has_wrong_connections;
use catalog::{Catalog, Database};

// Whether a database has the schema that it has from the start and nothing else, and its connections are right.
fn is_bare(database: &Database) -> bool
    ensures { result ≡ is_bare database.now }
{
    let schemas = database.schema_count();
    let types = database.enum_count();
    let tables = database.table_count();
    let indexes = database.index_count();
    let sequences = database.sequence_count();
    schemas == 1
        && types == 0
        && tables == 0
        && indexes == 0
        && sequences == 0
        && !has_wrong_connections(database)
}

// The same of the database at a place.
fn is_bare_at(catalog: &Catalog, n: usize) -> bool
    ensures { result ≡ is_bare_at (slice_get catalog.now.databases n) }
{
    match catalog.database_at(n) {
        Some(database) => is_bare(database),
        None => false,
    }
}

fn has_first_databases(catalog: &Catalog) -> bool
    ensures { result ≡ has_first_databases catalog.now.databases }
{
    let databases = catalog.database_count();
    databases == 3 && is_bare_at(catalog, 0) && is_bare_at(catalog, 1) && is_bare_at(catalog, 2)
}

fn has_first_objects(catalog: &Catalog) -> bool
    ensures { result ≡ has_first_objects catalog.now }
{
    let roles = catalog.role_count();
    let tablespaces = catalog.tablespace_count();
    roles == 1 && tablespaces == 1 && has_first_databases(catalog)
}

/// Whether the catalog is the one that a cluster of its bootstrap role starts with: nothing was added, and the connections are
/// as `initdb` sets them (`check_new_cluster_is_empty` of `pg_upgrade/check.c`).
pub fn is_started(catalog: &Catalog) -> bool
    ensures { IsTrue result ↔ (catalog.now ≡ started catalog.now.bootstrap) }
{
    let _valid = catalog.bootstrap();
    has_first_objects(catalog)
}

// The table of an OID in a catalog.
ghost use Rattle.std.specs.Prelude.{◌≡◌, None, Some, IfOk, IfErr, map, option_map};
ghost use Rattle.cluster_meaning.specs.Meaning.{found_table, table_relation, toast_relation};
ghost use Rattle.catalog.specs.Shapes.{kind_shape};
ghost use Rattle.cluster_read.specs.Causes.{missing_object};
ghost use Rattle.cluster_read.specs.Tables.{found_of};

use catalog::{Catalog, Column, Database, Table, Toast};
use heap_tuple::Shape;
use relation_files::Relation;
use std::alloc::{AllocError, Global};

// A table with the database that holds it.
#[derive(Clone, Copy)]
pub(crate) struct Found<'a> {
    pub(crate) database: &'a Database,
    pub(crate) table: &'a Table,
}

// The table of an OID in the database of an OID; the OID that the catalog lacks where there is none.
pub(crate) fn find_table(catalog: &Catalog, database: u32, table: u32) -> Result<Found, u32>
    ensures found { IfOk result (λ found. found_table catalog.now database table ≡ Some (found_of found)) }
    ensures stands { IfOk result (λ found. missing_object catalog.now database table ≡ None) }
    ensures missing { IfErr result (λ oid. missing_object catalog.now database table ≡ Some oid) }
{
    let Some(holder) = catalog.database(database) else {
        return Err(database);
    };
    match holder.table(table) {
        Some(found) => Ok(Found {
            database: holder,
            table: found,
        }),
        None => Err(table),
    }
}

// The relation of a table.
pub(crate) fn relation_of(found: &Found) -> Relation
    ensures { result ≡ table_relation (found_of found.now) }
{
    let database = found.database;
    let table = found.table;
    Relation {
        database: database.oid,
        tablespace: table.tablespace,
        file: table.file,
    }
}

// The relation of the toast table of a table, in the tablespace of its table.
pub(crate) fn toast_relation_of(found: &Found, toast: Toast) -> Relation
    ensures { result ≡ toast_relation (found_of found.now) toast }
{
    let database = found.database;
    let table = found.table;
    Relation {
        database: database.oid,
        tablespace: table.tablespace,
        file: toast.file,
    }
}

// The OID of a table's toast table.
pub(crate) fn toast_of(table: &Table) -> Option<u32>
    ensures { result ≡ option_map (λ toast. toast.oid) table.now.toast }
{
    match table.toast {
        Some(toast) => Some(toast.oid),
        None => None,
    }
}

// How the fields of columns lie, in every release.
pub(crate) fn shapes_of(alloc: Global, columns: &[Column]) -> Result<Vec<Shape>, AllocError>
    ensures { IfOk result (λ shapes. shapes.items ≡ map (λ column. kind_shape column.kind) columns.now) }
{
    let mut shapes = Vec::new(alloc);
    for column in columns {
        shapes.push(column.kind.shape())?;
    }
    Ok(shapes)
}

// The relations of a database, in the order of the catalog.
ghost use Rattle.std.specs.Prelude.{◌≡◌, ◌++◌, map, IfOk, OnOk};
ghost use Rattle.std.specs.List.{flat_map};
ghost use Rattle.catalog_server.specs.ReplayNames.{toast_relations, table_relations, index_relation, sequence_relation, relations_of, relations_in};

use catalog::{Catalog, Database, Table, Toast};
use catalog_server::Relation;
use std::alloc::{AllocError, Global};

/// The OID of `pg_default`.
pub(crate) const DEFAULT_TABLESPACE: u32 = 1663;

// A toast table and its index, which stand in the table's tablespace.
fn add_toast(
    relations: &mut Vec<Relation>,
    tablespace: u32,
    toast: &Option<Toast>,
) -> Result<(), AllocError>
    ensures { OnOk result (relations.new.items ≡ relations.old.items ++ toast_relations tablespace toast.now) }
{
    match toast {
        None => Ok(()),
        Some(toast) => {
            relations.push(Relation {
                oid: toast.oid,
                tablespace,
                file: toast.file,
            })?;
            relations.push(Relation {
                oid: toast.index_oid,
                tablespace,
                file: toast.index_file,
            })?;
            Ok(())
        }
    }
}

fn add_table(relations: &mut Vec<Relation>, table: &Table) -> Result<(), AllocError>
    ensures { OnOk result (relations.new.items ≡ relations.old.items ++ table_relations table.now) }
{
    relations.push(Relation {
        oid: table.oid,
        tablespace: table.tablespace,
        file: table.file,
    })?;
    add_toast(relations, table.tablespace, &table.toast)
}

fn add_tables(relations: &mut Vec<Relation>, database: &Database) -> Result<(), AllocError>
    ensures { OnOk result (relations.new.items ≡ relations.old.items ++ flat_map table_relations database.now.tables) }
{
    let count = database.table_count();
    for i in 0..count {
        match database.table_at(i) {
            None => return Ok(()),
            Some(table) => add_table(relations, table)?,
        }
    }
    Ok(())
}

fn add_indexes(relations: &mut Vec<Relation>, database: &Database) -> Result<(), AllocError>
    ensures { OnOk result (relations.new.items ≡ relations.old.items ++ map index_relation database.now.indexes) }
{
    let count = database.index_count();
    for i in 0..count {
        match database.index_at(i) {
            None => return Ok(()),
            Some(index) => relations.push(Relation {
                oid: index.oid,
                tablespace: index.tablespace,
                file: index.file,
            })?,
        }
    }
    Ok(())
}

fn add_sequences(relations: &mut Vec<Relation>, database: &Database) -> Result<(), AllocError>
    ensures { OnOk result (relations.new.items ≡ relations.old.items ++ map sequence_relation database.now.sequences) }
{
    let count = database.sequence_count();
    for i in 0..count {
        match database.sequence_at(i) {
            None => return Ok(()),
            Some(sequence) => relations.push(Relation {
                oid: sequence.oid,
                tablespace: DEFAULT_TABLESPACE,
                file: sequence.file,
            })?,
        }
    }
    Ok(())
}

/// Tables with their toast tables and the indexes of these, indexes, sequences.
pub(crate) fn relations_of(alloc: Global, database: &Database) -> Result<Vec<Relation>, AllocError>
    ensures { IfOk result (λ relations. relations.items ≡ relations_of database.now) }
{
    let mut relations = Vec::new(alloc);
    add_tables(&mut relations, database)?;
    add_indexes(&mut relations, database)?;
    add_sequences(&mut relations, database)?;
    Ok(relations)
}

/// The same of the database of an OID; none where the catalog has no such database.
pub(crate) fn relations_in(
    alloc: Global,
    catalog: &Catalog,
    database: u32,
) -> Result<Vec<Relation>, AllocError>
    ensures { IfOk result (λ relations. relations.items ≡ relations_in catalog.now database) }
{
    match catalog.database(database) {
        None => Ok(Vec::new(alloc)),
        Some(database) => relations_of(alloc, database),
    }
}

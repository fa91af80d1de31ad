// The relations of a catalog, in its order.
ghost use Rattle.std.specs.Prelude.{◌≡◌, ◌++◌, ◌∷◌, [], map, IfOk, OnOk};
ghost use Rattle.std.specs.List.{flat_map};
ghost use Rattle.catalog.specs.declared.relations.Index.{Index};
ghost use Rattle.catalog.specs.declared.relations.Sequence.{Sequence};
ghost use Rattle.catalog.specs.declared.relations.Table.{Table};
ghost use Rattle.catalog.specs.Spaces.{place_in, table_places, index_place, sequence_place};
ghost use Rattle.relation_files.specs.Relations.{relation_at, relations_in, relations_of};

use catalog::{Catalog, Database, Table};
use relation_files::Relation;
use std::alloc::{AllocError, Global};

const DEFAULT_TABLESPACE: u32 = 1663;

// Adds a relation of a database.
fn add_relation(
    relations: &mut Vec<Relation>,
    database: &Database,
    tablespace: u32,
    file: u32,
) -> Result<(), AllocError>
    ensures { OnOk result (relations.new.items ≡ relations.old.items ++ relation_at database.now (place_in tablespace file) ∷ []) }
{
    relations.push(Relation {
        database: database.oid,
        tablespace,
        file,
    })?;
    Ok(())
}

// Adds a table with its toast table and that one's index.
fn add_table(
    relations: &mut Vec<Relation>,
    database: &Database,
    table: &Table,
) -> Result<(), AllocError>
    ensures { OnOk result (relations.new.items ≡ relations.old.items ++ map (relation_at database.now) (table_places table.now)) }
{
    add_relation(relations, database, table.tablespace, table.file)?;
    if let Some(toast) = &table.toast {
        add_relation(relations, database, table.tablespace, toast.file)?;
        add_relation(relations, database, table.tablespace, toast.index_file)?;
    }
    Ok(())
}

fn add_tables(relations: &mut Vec<Relation>, database: &Database) -> Result<(), AllocError>
    ensures { OnOk result (relations.new.items ≡ relations.old.items ++ flat_map (λ (t : Table). map (relation_at database.now) (table_places t)) database.now.tables) }
{
    let count = database.table_count();
    for i in 0..count {
        match database.table_at(i) {
            None => return Err(AllocError),
            Some(table) => add_table(relations, database, table)?,
        }
    }
    Ok(())
}

fn add_indexes(relations: &mut Vec<Relation>, database: &Database) -> Result<(), AllocError>
    ensures { OnOk result (relations.new.items ≡ relations.old.items ++ map (λ (i : Index). relation_at database.now (index_place i)) database.now.indexes) }
{
    let count = database.index_count();
    for i in 0..count {
        match database.index_at(i) {
            None => return Err(AllocError),
            Some(index) => add_relation(relations, database, index.tablespace, index.file)?,
        }
    }
    Ok(())
}

fn add_sequences(relations: &mut Vec<Relation>, database: &Database) -> Result<(), AllocError>
    ensures { OnOk result (relations.new.items ≡ relations.old.items ++ map (λ (s : Sequence). relation_at database.now (sequence_place s)) database.now.sequences) }
{
    let count = database.sequence_count();
    for i in 0..count {
        match database.sequence_at(i) {
            None => return Err(AllocError),
            Some(sequence) => add_relation(relations, database, DEFAULT_TABLESPACE, sequence.file)?,
        }
    }
    Ok(())
}

fn add_database(relations: &mut Vec<Relation>, database: &Database) -> Result<(), AllocError>
    ensures { OnOk result (relations.new.items ≡ relations.old.items ++ relations_in database.now) }
{
    add_tables(relations, database)?;
    add_indexes(relations, database)?;
    add_sequences(relations, database)
}

/// The relations of all databases that have files.
pub(crate) fn relations_of(alloc: Global, catalog: &Catalog) -> Result<Vec<Relation>, AllocError>
    ensures { IfOk result (λ relations. relations.items ≡ relations_of catalog.now) }
{
    let mut relations = Vec::new(alloc);
    let count = catalog.database_count();
    for i in 0..count {
        match catalog.database_at(i) {
            None => return Err(AllocError),
            Some(database) => add_database(&mut relations, database)?,
        }
    }
    Ok(relations)
}

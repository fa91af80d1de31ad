// The relations of a database with the names that they go by, in the order of the catalog.
ghost use Rattle.std.specs.Prelude.{◌≡◌, ◌++◌, ◌∷◌, [], ℕ, map, IfOk, OnOk};
ghost use Rattle.std.specs.Option.{option_copied};
ghost use Rattle.std.specs.List.{find, flat_map};
ghost use Rattle.std.specs.FinMap.{get};
ghost use Rattle.catalog.specs.Spaces.{table_has, schema_of, schema_in};
ghost use Rattle.relation_map.specs.Named.{table_named, toast_named, index_named, sequence_named, relations_named};
ghost use Rattle.relation_map.specs.Places.{found_at};

use catalog::{Database, Table};
use fs_maps::InodeMap;
use fs_model::Text;
use std::alloc::{AllocError, Global};

const DEFAULT_TABLESPACE: u32 = 1663;

/// A relation with the schema and the name that it goes by. A toast table and its index go by those of their table.
#[derive(Drop)]
pub struct Named {
    pub oid: u32,
    pub schema: Text,
    pub name: Text,
    pub tablespace: u32,
    /// The file number, `relfilenode` of `pg_class`.
    pub file: u32,
}

// Adds a relation of this schema and this name.
fn add_named(
    relations: &mut Vec<Named>,
    oid: u32,
    schema: &Text,
    name: &Text,
    tablespace: u32,
    file: u32,
) -> Result<(), AllocError>
    ensures { OnOk result (relations.new.items ≡ relations.old.items ++ record { oid = oid; schema = schema.now; name = name.now; tablespace = tablespace; file = file } ∷ []) }
{
    relations.push(Named {
        oid,
        schema: schema.clone()?,
        name: name.clone()?,
        tablespace,
        file,
    })?;
    Ok(())
}

// Adds the toast table of a table, with its index.
fn add_toast(relations: &mut Vec<Named>, table: &Table) -> Result<(), AllocError>
    ensures { OnOk result (relations.new.items ≡ relations.old.items ++ toast_named table.now table.now.toast) }
{
    let Some(toast) = &table.toast else {
        return Ok(());
    };
    let tablespace = table.tablespace;
    let (schema, name) = (&table.schema, &table.name);
    add_named(relations, toast.oid, schema, name, tablespace, toast.file)?;
    add_named(
        relations,
        toast.index_oid,
        schema,
        name,
        tablespace,
        toast.index_file,
    )
}

fn add_table(relations: &mut Vec<Named>, table: &Table) -> Result<(), AllocError>
    ensures { OnOk result (relations.new.items ≡ relations.old.items ++ table_named table.now) }
{
    add_named(
        relations,
        table.oid,
        &table.schema,
        &table.name,
        table.tablespace,
        table.file,
    )?;
    add_toast(relations, table)
}

fn add_tables(relations: &mut Vec<Named>, database: &Database) -> Result<(), AllocError>
    ensures { OnOk result (relations.new.items ≡ relations.old.items ++ flat_map table_named database.now.tables) }
{
    let count = database.table_count();
    for i in 0..count {
        match database.table_at(i) {
            None => return Ok(()),
            Some(table) => add_table(relations, table)?,
        }
    }
    Ok(())
}

// The places of the tables by their OIDs.
fn table_places(alloc: Global, database: &Database) -> Result<InodeMap<usize>, AllocError>
    ensures { IfOk result (λ places. (oid : ℕ) → found_at database.now.tables (get places oid) ≡ find (table_has oid) database.now.tables) }
{
    let mut places = InodeMap::new(alloc);
    let count = database.table_count();
    for passed in 0..count {
        let place = count - 1 - passed;
        match database.table_at(place) {
            None => return Err(AllocError),
            Some(table) => places.insert(table.oid as u64, place)?,
        }
    }
    Ok(places)
}

// The schema of a table, nothing where there is no table.
fn schema_in(alloc: Global, table: Option<&Table>) -> Result<Text, AllocError>
    ensures { IfOk result (λ schema. schema ≡ schema_in (option_copied table.entry)) }
{
    match table {
        None => Ok(Text::new(Vec::new(alloc))),
        Some(table) => table.schema.clone(),
    }
}

fn table_of<'a>(database: &'a Database, places: &InodeMap<usize>, oid: u32) -> Option<&'a Table>
    requires { (n : ℕ) → found_at database.now.tables (get places.now n) ≡ find (table_has n) database.now.tables }
    ensures { option_copied result ≡ find (table_has oid) database.now.tables }
{
    match places.get(oid as u64) {
        None => None,
        Some(place) => database.table_at(*place),
    }
}

fn add_indexes(
    alloc: Global,
    relations: &mut Vec<Named>,
    database: &Database,
    places: &InodeMap<usize>,
) -> Result<(), AllocError>
    requires { (n : ℕ) → found_at database.now.tables (get places.now n) ≡ find (table_has n) database.now.tables }
    ensures { OnOk result (relations.new.items ≡ relations.old.items ++ map (index_named database.now.tables) database.now.indexes) }
{
    let count = database.index_count();
    for i in 0..count {
        match database.index_at(i) {
            None => return Ok(()),
            Some(index) => {
                let schema = schema_in(alloc, table_of(database, places, index.table))?;
                add_named(
                    relations,
                    index.oid,
                    &schema,
                    &index.name,
                    index.tablespace,
                    index.file,
                )?
            }
        }
    }
    Ok(())
}

fn add_sequences(relations: &mut Vec<Named>, database: &Database) -> Result<(), AllocError>
    ensures { OnOk result (relations.new.items ≡ relations.old.items ++ map sequence_named database.now.sequences) }
{
    let count = database.sequence_count();
    for i in 0..count {
        match database.sequence_at(i) {
            None => return Ok(()),
            Some(sequence) => add_named(
                relations,
                sequence.oid,
                &sequence.schema,
                &sequence.name,
                DEFAULT_TABLESPACE,
                sequence.file,
            )?,
        }
    }
    Ok(())
}

/// Each table with its toast table and that one's index, then the indexes, then the sequences.
pub(crate) fn relations_named(alloc: Global, database: &Database) -> Result<Vec<Named>, AllocError>
    ensures { IfOk result (λ relations. relations.items ≡ relations_named database.now) }
{
    let mut relations = Vec::new(alloc);
    add_tables(&mut relations, database)?;
    let places = table_places(alloc, database)?;
    add_indexes(alloc, &mut relations, database, &places)?;
    add_sequences(&mut relations, database)?;
    Ok(relations)
}

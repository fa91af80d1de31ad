// What a catalog has, in lines.
use catalog::{Catalog, Column, Database, EnumType, Index, Sequence, Table, Tablespace};
use fs_model::Text;
use std::alloc::{AllocError, Global};
use std::fmt::Debug;

fn push(said: &mut Vec<u8>, line: &[u8]) -> Option<()> {
    said.extend_from_slice(line).ok()?;
    said.extend_from_slice(b"\n").ok()
}

fn push_shown<T: Debug>(said: &mut Vec<u8>, alloc: Global, given: &T) -> Option<()> {
    let text = format!(in alloc; "{given:?}").ok()?;
    push(said, text.as_bytes())
}

// ---- of the cluster

fn push_tablespace(said: &mut Vec<u8>, alloc: Global, tablespace: &Tablespace) -> Option<()> {
    let location = tablespace.location.text().ok()?;
    push(said, location.as_bytes())?;
    push_shown(said, alloc, &tablespace.owner)
}

fn push_named(said: &mut Vec<u8>, alloc: Global, catalog: &Catalog, name: &[u8]) -> Option<()> {
    let name = Text::new(Vec::from_slice(alloc, name).ok()?);
    push_tablespace(said, alloc, catalog.tablespace_named(&name)?)
}

fn push_database(said: &mut Vec<u8>, alloc: Global, database: &Database) -> Option<()> {
    push(said, database.name.bytes())?;
    push_shown(said, alloc, &(database.owner, database.connections))
}

fn push_counts(said: &mut Vec<u8>, alloc: Global, catalog: &Catalog) -> Option<()> {
    let roles = catalog.role_count();
    let tablespaces = catalog.tablespace_count();
    push_shown(said, alloc, &(roles, tablespaces, catalog.database_count()))
}

// ---- of the database `app`

fn push_object_counts(said: &mut Vec<u8>, alloc: Global, database: &Database) -> Option<()> {
    push_shown(
        said,
        alloc,
        &(database.schema_count(), database.enum_count()),
    )?;
    push_shown(
        said,
        alloc,
        &(database.table_count(), database.index_count()),
    )?;
    push_shown(said, alloc, &database.sequence_count())
}

fn push_labels(said: &mut Vec<u8>, alloc: Global, kind: &EnumType) -> Option<()> {
    for label in kind.labels.items() {
        push(said, label.text.bytes())?;
        push_shown(said, alloc, &label.oid)?;
    }
    Some(())
}

fn push_column(said: &mut Vec<u8>, alloc: Global, column: &Column) -> Option<()> {
    push(said, column.name.bytes())?;
    push_shown(said, alloc, &column.kind)?;
    match &column.missing {
        Some(missing) => push_shown(said, alloc, &missing.bytes()),
        None => Some(()),
    }
}

fn push_columns(said: &mut Vec<u8>, alloc: Global, table: &Table) -> Option<()> {
    for column in table.columns.items() {
        push_column(said, alloc, column)?;
    }
    Some(())
}

fn push_table(said: &mut Vec<u8>, alloc: Global, table: &Table) -> Option<()> {
    push(said, table.schema.bytes())?;
    push(said, table.name.bytes())?;
    push_shown(said, alloc, &(table.oid, table.row_type, table.owner))?;
    push_shown(said, alloc, &(table.tablespace, table.file))?;
    push_shown(said, alloc, &table.toast)?;
    push_columns(said, alloc, table)
}

fn push_index(said: &mut Vec<u8>, alloc: Global, index: &Index) -> Option<()> {
    push(said, index.name.bytes())?;
    push_shown(said, alloc, &(index.oid, index.table))?;
    push_shown(said, alloc, &(index.tablespace, index.file))?;
    push_shown(said, alloc, &index.keys.items())
}

fn push_sequence(said: &mut Vec<u8>, alloc: Global, sequence: &Sequence) -> Option<()> {
    push(said, sequence.schema.bytes())?;
    push(said, sequence.name.bytes())?;
    push_shown(said, alloc, &(sequence.oid, sequence.file, sequence.owner))
}

fn push_object(
    said: &mut Vec<u8>,
    alloc: Global,
    database: &Database,
    what: &str,
    number: u32,
) -> Option<()> {
    let place = number as usize;
    match what {
        "objects" => push_object_counts(said, alloc, database),
        "labels" => push_labels(said, alloc, database.enum_at(place)?),
        "table" => push_table(said, alloc, database.table_at(place)?),
        "columns" => push_columns(said, alloc, database.table(number)?),
        "index" => push_index(said, alloc, database.index_at(place)?),
        "sequence" => push_sequence(said, alloc, database.sequence_at(place)?),
        _ => None,
    }
}

// ---- what a text names

fn push_numbered(
    said: &mut Vec<u8>,
    alloc: Global,
    catalog: &Catalog,
    what: &str,
    number: u32,
) -> Option<()> {
    match what {
        "counts" => push_counts(said, alloc, catalog),
        "role" => push(said, catalog.role(number)?.name.bytes()),
        "tablespace" => push_tablespace(said, alloc, catalog.tablespace(number)?),
        "database" => push_database(said, alloc, catalog.database(number)?),
        _ => push_object(said, alloc, catalog.database(16400)?, what, number),
    }
}

fn found(said: &mut Vec<u8>, alloc: Global, catalog: &Catalog, text: &[u8]) -> Option<()> {
    let text = str::from_utf8(text).ok()?;
    match text.split_once(' ').unwrap_or((text, "0")) {
        ("named", name) => push_named(said, alloc, catalog, name.as_bytes()),
        (what, number) => push_numbered(said, alloc, catalog, what, number.parse::<u32>().ok()?),
    }
}

/// What of the catalog the text names, and `nothing` behind it where it isn't there.
pub(crate) fn push_found(
    said: &mut Vec<u8>,
    alloc: Global,
    catalog: &Catalog,
    text: &[u8],
) -> Result<(), AllocError> {
    match found(said, alloc, catalog, text) {
        Some(()) => Ok(()),
        None => said.extend_from_slice(b"nothing"),
    }
}

// The lines of what a database holds.
ghost use Rattle.std.specs.Prelude.{◌≡◌, ◌++◌, ◌∷◌, true, drop, OnOk, is_none, slice_get};
ghost use Rattle.std.specs.List.{list_all, flat_map};
ghost use Rattle.dump_grammar.specs.declared.statement.Statement.TheVariants.{Connect};
ghost use Rattle.dump_grammar.specs.Canonical.{schema_statements, enum_statements, table_statements, index_statements, sequence_statements, object_statements, holds_nothing, content_statements, is_byte_database};
ghost use Rattle.dump_print.specs.Parts.{lines_text};

use crate::objects::{put_enum, put_index, put_schema, put_sequence, put_table};
use crate::statements::put_connect;
use catalog::{Catalog, Database};
use std::alloc::AllocError;

// ---- each kind of object

// The schema `public`, at the place 0, is always there.
fn put_schemas(out: &mut Vec<u8>, catalog: &Catalog, database: &Database) -> Result<(), AllocError>
    ensures { OnOk result (out.new.items ≡ out.old.items ++ lines_text (flat_map (schema_statements catalog.now.roles) (drop 1 database.now.schemas))) }
{
    let count = database.schema_count();
    for i in 1..count {
        match database.schema_at(i) {
            None => return Ok(()),
            Some(schema) => put_schema(out, catalog, schema)?,
        }
    }
    Ok(())
}

fn put_enums(out: &mut Vec<u8>, catalog: &Catalog, database: &Database) -> Result<(), AllocError>
    ensures { OnOk result (out.new.items ≡ out.old.items ++ lines_text (flat_map (enum_statements catalog.now.roles) database.now.enums)) }
{
    let count = database.enum_count();
    for i in 0..count {
        match database.enum_at(i) {
            None => return Ok(()),
            Some(kind) => put_enum(out, catalog, kind)?,
        }
    }
    Ok(())
}

fn put_tables(out: &mut Vec<u8>, catalog: &Catalog, database: &Database) -> Result<(), AllocError>
    ensures text { OnOk result (out.new.items ≡ out.old.items ++ lines_text (flat_map (table_statements catalog.now.roles catalog.now.tablespaces database.now.enums) database.now.tables)) }
    ensures bytes { OnOk result (is_byte_database database.now ≡ true) }
{
    let count = database.table_count();
    for i in 0..count {
        match database.table_at(i) {
            None => return Ok(()),
            Some(table) => put_table(out, catalog, database, table)?,
        }
    }
    Ok(())
}

fn put_indexes(out: &mut Vec<u8>, catalog: &Catalog, database: &Database) -> Result<(), AllocError>
    ensures { OnOk result (out.new.items ≡ out.old.items ++ lines_text (flat_map (index_statements catalog.now.tablespaces database.now.tables) database.now.indexes)) }
{
    let count = database.index_count();
    for i in 0..count {
        match database.index_at(i) {
            None => return Ok(()),
            Some(index) => put_index(out, catalog, database, index)?,
        }
    }
    Ok(())
}

fn put_sequences(
    out: &mut Vec<u8>,
    catalog: &Catalog,
    database: &Database,
) -> Result<(), AllocError>
    ensures { OnOk result (out.new.items ≡ out.old.items ++ lines_text (flat_map (sequence_statements catalog.now.roles) database.now.sequences)) }
{
    let count = database.sequence_count();
    for i in 0..count {
        match database.sequence_at(i) {
            None => return Ok(()),
            Some(sequence) => put_sequence(out, catalog, sequence)?,
        }
    }
    Ok(())
}

fn put_objects(out: &mut Vec<u8>, catalog: &Catalog, database: &Database) -> Result<(), AllocError>
    ensures text { OnOk result (out.new.items ≡ out.old.items ++ lines_text (object_statements catalog.now.roles catalog.now.tablespaces database.now)) }
    ensures bytes { OnOk result (is_byte_database database.now ≡ true) }
{
    put_schemas(out, catalog, database)?;
    put_enums(out, catalog, database)?;
    put_tables(out, catalog, database)?;
    put_indexes(out, catalog, database)?;
    put_sequences(out, catalog, database)?;
    Ok(())
}

// ---- whether there is any object

fn has_no_schemas(database: &Database) -> bool
    ensures { result ≡ is_none (slice_get database.now.schemas 1) }
{
    database.schema_at(1).is_none()
}

fn has_no_enums(database: &Database) -> bool
    ensures { result ≡ is_none (slice_get database.now.enums 0) }
{
    database.enum_at(0).is_none()
}

fn has_no_tables(database: &Database) -> bool
    ensures { result ≡ is_none (slice_get database.now.tables 0) }
{
    database.table_at(0).is_none()
}

fn has_no_indexes(database: &Database) -> bool
    ensures { result ≡ is_none (slice_get database.now.indexes 0) }
{
    database.index_at(0).is_none()
}

fn has_no_sequences(database: &Database) -> bool
    ensures { result ≡ is_none (slice_get database.now.sequences 0) }
{
    database.sequence_at(0).is_none()
}

fn holds_nothing(database: &Database) -> bool
    ensures { result ≡ holds_nothing database.now }
{
    let schemas = has_no_schemas(database);
    let enums = has_no_enums(database);
    let tables = has_no_tables(database);
    let indexes = has_no_indexes(database);
    let sequences = has_no_sequences(database);
    schemas && enums && tables && indexes && sequences
}

// ---- the whole of a database

fn put_connected(
    out: &mut Vec<u8>,
    catalog: &Catalog,
    database: &Database,
) -> Result<(), AllocError>
    ensures text { OnOk result (out.new.items ≡ out.old.items ++ lines_text (Connect database.now.name ∷ object_statements catalog.now.roles catalog.now.tablespaces database.now)) }
    ensures bytes { OnOk result (is_byte_database database.now ≡ true) }
{
    put_connect(out, database.name.bytes())?;
    put_objects(out, catalog, database)?;
    Ok(())
}

fn put_content(out: &mut Vec<u8>, catalog: &Catalog, database: &Database) -> Result<(), AllocError>
    ensures text { OnOk result (out.new.items ≡ out.old.items ++ lines_text (content_statements catalog.now.roles catalog.now.tablespaces database.now)) }
    ensures bytes { OnOk result (is_byte_database database.now ≡ true) }
{
    if holds_nothing(database) {
        Ok(())
    } else {
        put_connected(out, catalog, database)
    }
}

pub(crate) fn put_contents(out: &mut Vec<u8>, catalog: &Catalog) -> Result<(), AllocError>
    ensures text { OnOk result (out.new.items ≡ out.old.items ++ lines_text (flat_map (content_statements catalog.now.roles catalog.now.tablespaces) catalog.now.databases)) }
    ensures bytes { OnOk result (list_all is_byte_database catalog.now.databases ≡ true) }
{
    let count = catalog.database_count();
    for i in 0..count {
        match catalog.database_at(i) {
            None => return Ok(()),
            Some(database) => put_content(out, catalog, database)?,
        }
    }
    Ok(())
}

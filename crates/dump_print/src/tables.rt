// The lines of tables and of indexes.
ghost use Rattle.std.specs.Prelude.{◌≡◌, ◌++◌, true, OnOk};
ghost use Rattle.dump_grammar.specs.Canonical.{create_table, create_index, table_place, is_byte_table};
ghost use Rattle.dump_print.specs.Parts.{line_text, table_spaces, table_head, index_spaces, index_head};

use crate::columns::{put_columns, put_keys};
use crate::parts::{
    put_owner, put_place, put_table_place, put_tablespace, role_name, tablespace_name,
};
use catalog::{Catalog, Database, Index, Table};
use dump_lex::put_name;
use std::alloc::AllocError;

fn put_table_spaces(out: &mut Vec<u8>, catalog: &Catalog, table: &Table) -> Result<(), AllocError>
    ensures { OnOk result (out.new.items ≡ out.old.items ++ table_spaces catalog.now.roles catalog.now.tablespaces table.now) }
{
    put_owner(out, role_name(catalog, table.owner))?;
    put_tablespace(out, tablespace_name(catalog, table.tablespace))
}

fn put_table_head(out: &mut Vec<u8>, catalog: &Catalog, table: &Table) -> Result<(), AllocError>
    ensures { OnOk result (out.new.items ≡ out.old.items ++ table_head catalog.now.roles catalog.now.tablespaces table.now) }
{
    out.extend_from_slice(b"CREATE TABLE ")?;
    put_place(out, table.schema.bytes(), table.name.bytes())?;
    put_table_spaces(out, catalog, table)
}

pub(crate) fn put_create_table(
    out: &mut Vec<u8>,
    catalog: &Catalog,
    database: &Database,
    table: &Table,
) -> Result<(), AllocError>
    ensures text { OnOk result (out.new.items ≡ out.old.items ++ line_text (create_table catalog.now.roles catalog.now.tablespaces database.now.enums table.now)) }
    ensures bytes { OnOk result (is_byte_table table.now ≡ true) }
{
    put_table_head(out, catalog, table)?;
    put_columns(out, database, table.columns.items())?;
    Ok(())
}

fn put_index_spaces(
    out: &mut Vec<u8>,
    catalog: &Catalog,
    database: &Database,
    index: &Index,
) -> Result<(), AllocError>
    ensures { OnOk result (out.new.items ≡ out.old.items ++ index_spaces catalog.now.tablespaces database.now.tables index.now) }
{
    out.extend_from_slice(b" ON ")?;
    put_table_place(out, database, index.table)?;
    put_tablespace(out, tablespace_name(catalog, index.tablespace))
}

fn put_index_head(
    out: &mut Vec<u8>,
    catalog: &Catalog,
    database: &Database,
    index: &Index,
) -> Result<(), AllocError>
    ensures { OnOk result (out.new.items ≡ out.old.items ++ index_head catalog.now.tablespaces database.now.tables index.now) }
{
    out.extend_from_slice(b"CREATE INDEX ")?;
    put_name(out, index.name.bytes())?;
    put_index_spaces(out, catalog, database, index)
}

pub(crate) fn put_create_index(
    out: &mut Vec<u8>,
    catalog: &Catalog,
    database: &Database,
    index: &Index,
) -> Result<(), AllocError>
    ensures { OnOk result (out.new.items ≡ out.old.items ++ line_text (create_index catalog.now.tablespaces (table_place database.now.tables index.now.table) index.now)) }
{
    put_index_head(out, catalog, database, index)?;
    put_keys(out, index.keys.items())?;
    Ok(())
}

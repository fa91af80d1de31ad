// The catalogs of the two clusters.
ghost use Rattle.std.specs.Prelude.{◌≡◌, ◌≤◌, ◌<◌, true, Ok, IfOk, OnOk};
ghost use Rattle.catalog.specs.Changes.{with_database, with_table};
ghost use Rattle.catalog.specs.Cluster.{fresh_database};
ghost use Rattle.dump_grammar.specs.Canonical.{canonical};
ghost use Rattle.cluster_gen.specs.Catalogs.{app_name, row_type_of, table_name, columns, column_named, table_numbered, new_catalog, old_catalog};

use catalog::{BaseType, Catalog, Column, ColumnKind, Columns, Database, Table, Toast};
use dump_text::print;
use fs_model::Text;
use std::alloc::{AllocError, Global};

/// The OID of the database `app`.
pub(crate) const APP: u32 = 16_384;

const BOOTSTRAP_ROLE: u32 = 10;

const DEFAULT_TABLESPACE: u32 = 1663;

/// The OID of the row type of the table of a number; the OIDs and files of the table follow it.
pub(crate) fn row_type_of(table: u32) -> u32
    requires { table < 200 }
    ensures { result ≡ row_type_of table }
{
    16_400 + 10 * table
}

fn text_of(alloc: Global, bytes: &[u8]) -> Result<Text, AllocError>
    ensures { IfOk result (λ text. text ≡ bytes.now) }
{
    Ok(Text::new(Vec::from_slice(alloc, bytes)?))
}

fn column(alloc: Global, name: &[u8], base: BaseType) -> Result<Column, AllocError>
    ensures { IfOk result (λ column. column ≡ column_named name.now base) }
{
    Ok(Column {
        name: text_of(alloc, name)?,
        kind: ColumnKind::Base(base),
        missing: None,
    })
}

// The columns of each table.
fn columns(alloc: Global) -> Result<Columns, AllocError>
    ensures { IfOk result (λ list. list ≡ columns) }
{
    let mut list = Vec::new(alloc);
    list.push(column(alloc, b"id", BaseType::Int4)?)?;
    list.push(column(alloc, b"note", BaseType::Text)?)?;
    Ok(Columns::new(list))
}

fn table_name(alloc: Global, table: u32) -> Result<Text, AllocError>
    ensures { IfOk result (λ name. name ≡ table_name table) }
{
    let name = format!(in alloc; "t{table}")?;
    text_of(alloc, name.as_bytes())
}

// The table of a number.
fn table_numbered(alloc: Global, table: u32) -> Result<Table, AllocError>
    requires { table < 200 }
    ensures { IfOk result (λ made. made ≡ table_numbered table) }
{
    let row_type = row_type_of(table);
    Ok(Table {
        oid: row_type + 1,
        row_type,
        schema: text_of(alloc, b"public")?,
        name: table_name(alloc, table)?,
        owner: BOOTSTRAP_ROLE,
        tablespace: DEFAULT_TABLESPACE,
        file: row_type + 1,
        toast: Some(Toast {
            oid: row_type + 2,
            file: row_type + 2,
            index_oid: row_type + 3,
            index_file: row_type + 3,
        }),
        columns: columns(alloc)?,
    })
}

fn add_table(alloc: Global, catalog: &mut Catalog, table: u32) -> Result<(), AllocError>
    requires { table < 200 }
    ensures { OnOk result (with_table catalog.old 16384 (table_numbered table) ≡ Ok catalog.new) }
{
    let made = table_numbered(alloc, table)?;
    match catalog.add_table(APP, made) {
        Ok(()) => Ok(()),
        // want of memory alone: no other object has its numbers, its name or its files
        Err(_) => Err(AllocError),
    }
}

fn add_app(alloc: Global, catalog: &mut Catalog) -> Result<(), AllocError>
    ensures { OnOk result (with_database catalog.old (fresh_database 16384 app_name 10 true) ≡ Ok catalog.new) }
{
    let name = text_of(alloc, b"app")?;
    let Ok(database) = Database::fresh(alloc, APP, name, BOOTSTRAP_ROLE, true) else {
        return Err(AllocError);
    };
    match catalog.add_database(database) {
        Ok(()) => Ok(()),
        // want of memory alone: no other database has its OID or its name
        Err(_) => Err(AllocError),
    }
}

/// The catalog of the new cluster, which is that of a cluster that the role `postgres` has just made.
pub fn new_catalog(alloc: Global) -> Result<Catalog, AllocError>
    ensures { IfOk result (λ catalog. catalog ≡ new_catalog) }
{
    let name = text_of(alloc, b"postgres")?;
    match Catalog::start(alloc, name) {
        Ok(catalog) => Ok(catalog),
        Err(_) => Err(AllocError),
    }
}

/// The catalog of the old cluster: that of a new one, and the database `app` with so many tables.
#[tactic(auto, unfolding(crate::specs::Catalogs::old_catalog))]
pub fn old_catalog(alloc: Global, tables: u32) -> Result<Catalog, AllocError>
    requires { tables ≤ 200 }
    ensures { IfOk result (λ catalog. catalog ≡ old_catalog tables) }
{
    let mut catalog = new_catalog(alloc)?;
    add_app(alloc, &mut catalog)?;
    for table in 0..tables {
        add_table(alloc, &mut catalog, table)?;
    }
    Ok(catalog)
}

/// The canonical text of a catalog.
pub(crate) fn text_in(alloc: Global, catalog: &Catalog) -> Result<Vec<u8>, AllocError>
    ensures { IfOk result (λ text. text.items ≡ canonical catalog.now) }
{
    match print(alloc, catalog) {
        Ok(text) => Ok(text),
        Err(_) => Err(AllocError),
    }
}

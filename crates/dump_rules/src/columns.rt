// The columns of a table, with the enums that they name.
ghost use Rattle.std.specs.Prelude.{◌≡◌, List, [], ◌∷◌, ◌++◌, option_map, IfOk, OnOk};
ghost use Rattle.catalog.specs.declared.relations.Column.{Column};
ghost use Rattle.dump_rules.specs.Rules.{kind_of, column_of, columns_of};
ghost use Rattle.dump_rules.specs.Kept.{kept};

use crate::named::enum_oid;
use catalog::{Column, ColumnKind, Columns, Database};
use dump_grammar::{ColumnText, ColumnTexts, NamedKind};
use std::alloc::{AllocError, Global};

fn kind_of(database: &Database, kind: &NamedKind) -> Option<ColumnKind>
    ensures { result ≡ kind_of database.now kind.now }
{
    match kind {
        NamedKind::Base(base) => Some(ColumnKind::Base(*base)),
        NamedKind::Enum(schema, name) => match enum_oid(database, schema, name) {
            None => None,
            Some(oid) => Some(ColumnKind::Enum(oid)),
        },
        NamedKind::Dropped { length, align } => Some(ColumnKind::Dropped {
            length: *length,
            align: *align,
        }),
    }
}

fn column_of(database: &Database, column: ColumnText) -> Option<Column>
    ensures { result ≡ column_of database.now column }
{
    match kind_of(database, &column.kind) {
        None => None,
        Some(kind) => Some(Column {
            name: column.name,
            kind,
            missing: column.missing,
        }),
    }
}

// As many columns are kept as show that a table has too many of them (`MaxHeapAttributeNumber` of
// `access/htup_details.h` is 1,600), and no more: a statement may have millions.
const KEPT: usize = 1_601;

// Adds a column, unless enough are there.
fn keep(columns: &mut Vec<Column>, column: Column) -> Result<(), AllocError>
    ensures { OnOk result ((all : List Column) → columns.old.items ≡ kept all → columns.new.items ≡ kept (all ++ column ∷ [])) }
{
    if columns.len() < KEPT {
        columns.push(column)?;
    }
    Ok(())
}

// The first columns, or `None` where the enum of any of them all isn't there.
pub(crate) fn first_columns(
    alloc: Global,
    database: &Database,
    texts: &ColumnTexts,
) -> Result<Option<Columns>, AllocError>
    ensures { IfOk result (λ o. o ≡ option_map kept (columns_of database.now texts.now)) }
{
    let mut columns = Vec::new(alloc);
    for index in 0..texts.len() {
        match column_of(database, texts.column(alloc, index)?) {
            None => return Ok(None),
            Some(column) => keep(&mut columns, column)?,
        }
    }
    Ok(Some(Columns::new(columns)))
}

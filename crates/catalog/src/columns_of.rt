// Tests over the columns of a table and the keys of an index.
ghost use Rattle.std.specs.Prelude.{◌≡◌, ◌&&◌, true, nat_eq};
ghost use Rattle.std.specs.List.{list_any, list_all};
ghost use Rattle.catalog.specs.Lists.{are_distinct};
ghost use Rattle.catalog.specs.Forms.{column_stands, is_live, same_column, key_stands};

use crate::enum_types::EnumTypes;
use crate::relations::Column;
use crate::types::ColumnKind;

// Whether the enum that a column is of is there.
fn column_stands(enums: &EnumTypes, column: &Column) -> bool
    ensures { result ≡ column_stands enums.now column.now }
{
    match column.kind {
        ColumnKind::Base(_) => true,
        ColumnKind::Enum(oid) => enums.stand(oid),
        ColumnKind::Dropped { .. } => true,
    }
}

pub(crate) fn columns_stand(enums: &EnumTypes, columns: &[Column]) -> bool
    ensures { result ≡ list_all (column_stands enums.now) columns.now }
{
    columns.iter().all(|column| column_stands(enums, column))
}

fn is_live(column: &Column) -> bool
    ensures { result ≡ is_live column.now }
{
    match column.kind {
        ColumnKind::Base(_) => true,
        ColumnKind::Enum(_) => true,
        ColumnKind::Dropped { .. } => false,
    }
}

// Whether two columns that weren't dropped have one name.
fn same_column(column: &Column, other: &Column) -> bool
    ensures { result ≡ same_column column.now other.now }
{
    is_live(column) && is_live(other) && column.name.bytes() == other.name.bytes()
}

fn has_column_like(columns: &[Column], column: &Column) -> bool
    ensures { result ≡ list_any (same_column column.now) columns.now }
{
    columns.iter().any(|other| same_column(column, other))
}

// Whether no two of the columns that weren't dropped have one name.
pub(crate) fn column_names_differ(columns: &[Column]) -> bool
    ensures { result ≡ are_distinct same_column columns.now }
{
    let mut rest = columns;
    while let Some((first, others)) = rest.split_first() {
        if has_column_like(others, first) {
            return false;
        }
        rest = others;
    }
    true
}

// Whether a key counts a column.
fn key_stands(columns: &[Column], key: u16) -> bool
    ensures { result ≡ key_stands columns.now key }
{
    if key == 0 {
        return false;
    }
    columns.get(key as usize - 1).is_some()
}

pub(crate) fn keys_stand(columns: &[Column], keys: &[u16]) -> bool
    ensures { result ≡ list_all (key_stands columns.now) keys.now }
{
    keys.iter().all(|key| key_stands(columns, *key))
}

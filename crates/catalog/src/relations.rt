ghost use Rattle.std.specs.Prelude.{◌≡◌};

use crate::types::ColumnKind;
use fs_model::{Bytes, Text};
use std::marker::Model;

/// A column of a table, of `pg_attribute`.
#[derive(Drop)]
pub struct Column {
    /// Empty where the column was dropped.
    pub name: Text,
    pub kind: ColumnKind,
    /// The value of the rows that were written before the column was added, `attmissingval`.
    pub missing: Option<Bytes>,
}

/// The columns of a table, in order, with the dropped ones. A contract sees them as a list.
#[derive(Drop)]
pub struct Columns {
    items: Vec<Column>,
}

impl Model for Columns {
    ghost use Rattle.std.specs.Prelude.{List};
    ghost use Rattle.catalog.specs.declared.relations.Column.{Column};

    ghost Value = { List Column };

    ghost view = { λ a. a.items.items };
}

impl Columns {
    /// Takes no memory.
    pub fn new(items: Vec<Column>) -> Columns
        ensures { result ≡ items.items }
    {
        Columns { items }
    }

    /// Lends the columns.
    pub fn items(&self) -> &[Column]
        ensures { result.now ≡ self.now }
    {
        &self.items
    }

    /// Gives the vector back.
    pub fn into_vec(self) -> Vec<Column>
        ensures { result.items ≡ self }
    {
        self.items
    }
}

/// The toast table of a table, with the one index that it has. Both stand in the table's tablespace.
#[derive(Clone, Copy, Debug, PartialEq, Eq)]
pub struct Toast {
    pub oid: u32,
    /// The file number, `relfilenode` of `pg_class`.
    pub file: u32,
    pub index_oid: u32,
    /// The file number of the index.
    pub index_file: u32,
}

/// A table, of `pg_class` and `pg_attribute`.
#[derive(Drop)]
pub struct Table {
    pub oid: u32,
    /// The OID of its row type, `reltype` of `pg_class`.
    pub row_type: u32,
    /// The name of a schema of the database.
    pub schema: Text,
    pub name: Text,
    /// The OID of a role.
    pub owner: u32,
    /// The OID of a tablespace; that of `pg_default` is 1663.
    pub tablespace: u32,
    /// The file number, `relfilenode` of `pg_class`.
    pub file: u32,
    pub toast: Option<Toast>,
    pub columns: Columns,
}

/// The columns that an index is over, counted from 1, in order. A contract sees them as a list.
#[derive(Drop)]
pub struct Keys {
    items: Vec<u16>,
}

impl Model for Keys {
    ghost use Rattle.std.specs.Prelude.{List, ℕ};

    ghost Value = { List ℕ };

    ghost view = { λ a. a.items.items };
}

impl Keys {
    /// Takes no memory.
    pub fn new(items: Vec<u16>) -> Keys
        ensures { result ≡ items.items }
    {
        Keys { items }
    }

    /// Lends the numbers of the columns.
    pub fn items(&self) -> &[u16]
        ensures { result.now ≡ self.now }
    {
        &self.items
    }

    /// Gives the vector back.
    pub fn into_vec(self) -> Vec<u16>
        ensures { result.items ≡ self }
    {
        self.items
    }
}

/// An index, of `pg_class` and `pg_index`. It is in the schema of its table.
#[derive(Drop)]
pub struct Index {
    pub oid: u32,
    /// The OID of its table.
    pub table: u32,
    pub name: Text,
    /// The OID of a tablespace.
    pub tablespace: u32,
    /// The file number, `relfilenode` of `pg_class`.
    pub file: u32,
    pub keys: Keys,
}

/// A sequence, of `pg_class`. It stands in the tablespace `pg_default`.
#[derive(Drop)]
pub struct Sequence {
    pub oid: u32,
    /// The name of a schema of the database.
    pub schema: Text,
    pub name: Text,
    /// The OID of a role.
    pub owner: u32,
    /// The file number, `relfilenode` of `pg_class`.
    pub file: u32,
}

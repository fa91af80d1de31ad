// Whether two objects are equal.
ghost use Rattle.std.specs.Prelude.{◌≡◌, ◌&&◌};
ghost use Rattle.std.specs.Bool.{Decides};

use crate::databases::Database;
use crate::enums::{EnumType, Label};
use crate::owners::{Role, Schema, Tablespace};
use crate::relations::{Column, Index, Sequence, Table, Toast};
use crate::types::ColumnKind;
use fs_model::{Bytes, Path, Text};

// A type whose values can be compared.
pub(crate) trait Same {
    fn same(&self, other: &Self) -> bool
        ensures { Decides result (self.now ≡ other.now) };
}

pub(crate) fn both(first: bool, second: bool) -> bool
    ensures { result ≡ (first && second) }
{
    first && second
}

pub(crate) fn same_text(a: &Text, b: &Text) -> bool
    ensures { Decides result (a.now ≡ b.now) }
{
    a.bytes() == b.bytes()
}

fn same_path(a: &Path, b: &Path) -> bool
    ensures { Decides result (a.now ≡ b.now) }
{
    *a == *b
}

fn same_kind(a: ColumnKind, b: ColumnKind) -> bool
    ensures { Decides result (a ≡ b) }
{
    a == b
}

fn same_toast(a: Option<Toast>, b: Option<Toast>) -> bool
    ensures { Decides result (a ≡ b) }
{
    a == b
}

fn same_keys(a: &[u16], b: &[u16]) -> bool
    ensures { Decides result (a.now ≡ b.now) }
{
    a == b
}

fn same_missing(a: &Option<Bytes>, b: &Option<Bytes>) -> bool
    ensures { Decides result (a.now ≡ b.now) }
{
    match (a, b) {
        (None, None) => true,
        (Some(a), Some(b)) => a.bytes() == b.bytes(),
        (None, Some(_)) | (Some(_), None) => false,
    }
}

// Whether two lists have equal items, in one order.
pub(crate) fn same_items<T: Same>(a: &[T], b: &[T]) -> bool
    ensures { Decides result (a.now ≡ b.now) }
{
    let mut left = a;
    let mut right = b;
    while let Some((first, more)) = left.split_first() {
        let Some((second, others)) = right.split_first() else {
            return false;
        };
        if !first.same(second) {
            return false;
        }
        left = more;
        right = others;
    }
    right.is_empty()
}

impl Same for Role {
    fn same(&self, other: &Role) -> bool {
        let oid = self.oid == other.oid;
        let name = same_text(&self.name, &other.name);
        both(oid, name)
    }
}

impl Same for Tablespace {
    fn same(&self, other: &Tablespace) -> bool {
        let oid = self.oid == other.oid;
        let name = same_text(&self.name, &other.name);
        let owner = self.owner == other.owner;
        let location = same_path(&self.location, &other.location);
        both(oid, both(name, both(owner, location)))
    }
}

impl Same for Schema {
    fn same(&self, other: &Schema) -> bool {
        let name = same_text(&self.name, &other.name);
        let owner = self.owner == other.owner;
        both(name, owner)
    }
}

impl Same for Label {
    fn same(&self, other: &Label) -> bool {
        let oid = self.oid == other.oid;
        let text = same_text(&self.text, &other.text);
        both(oid, text)
    }
}

impl Same for EnumType {
    fn same(&self, other: &EnumType) -> bool {
        let oid = self.oid == other.oid;
        let schema = same_text(&self.schema, &other.schema);
        let name = same_text(&self.name, &other.name);
        let owner = self.owner == other.owner;
        let labels = same_items(self.labels.items(), other.labels.items());
        both(oid, both(schema, both(name, both(owner, labels))))
    }
}

impl Same for Column {
    fn same(&self, other: &Column) -> bool {
        let name = same_text(&self.name, &other.name);
        let kind = same_kind(self.kind, other.kind);
        let missing = same_missing(&self.missing, &other.missing);
        both(name, both(kind, missing))
    }
}

impl Same for Table {
    fn same(&self, other: &Table) -> bool {
        let oid = self.oid == other.oid;
        let row_type = self.row_type == other.row_type;
        let schema = same_text(&self.schema, &other.schema);
        let name = same_text(&self.name, &other.name);
        let owner = self.owner == other.owner;
        let tablespace = self.tablespace == other.tablespace;
        let file = self.file == other.file;
        let toast = same_toast(self.toast, other.toast);
        let columns = same_items(self.columns.items(), other.columns.items());
        both(
            oid,
            both(
                row_type,
                both(
                    schema,
                    both(
                        name,
                        both(owner, both(tablespace, both(file, both(toast, columns)))),
                    ),
                ),
            ),
        )
    }
}

impl Same for Index {
    fn same(&self, other: &Index) -> bool {
        let oid = self.oid == other.oid;
        let table = self.table == other.table;
        let name = same_text(&self.name, &other.name);
        let tablespace = self.tablespace == other.tablespace;
        let file = self.file == other.file;
        let keys = same_keys(self.keys.items(), other.keys.items());
        both(
            oid,
            both(table, both(name, both(tablespace, both(file, keys)))),
        )
    }
}

impl Same for Sequence {
    fn same(&self, other: &Sequence) -> bool {
        let oid = self.oid == other.oid;
        let schema = same_text(&self.schema, &other.schema);
        let name = same_text(&self.name, &other.name);
        let owner = self.owner == other.owner;
        let file = self.file == other.file;
        both(oid, both(schema, both(name, both(owner, file))))
    }
}

impl Same for Database {
    fn same(&self, other: &Database) -> bool {
        let oid = self.oid == other.oid;
        let name = same_text(&self.name, &other.name);
        let owner = self.owner == other.owner;
        let connections = self.connections == other.connections;
        let schemas = same_items(self.schemas.items(), other.schemas.items());
        let enums = same_items(self.enums.items(), other.enums.items());
        let tables = same_items(self.tables.items(), other.tables.items());
        let indexes = same_items(self.indexes.items(), other.indexes.items());
        let sequences = same_items(self.sequences.items(), other.sequences.items());
        let head = both(oid, both(name, both(owner, connections)));
        let types = both(schemas, both(enums, tables));
        both(head, both(types, both(indexes, sequences)))
    }
}

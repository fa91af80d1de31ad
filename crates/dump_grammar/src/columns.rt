// A column, as a statement says it.
use catalog::BaseType;
use fs_model::{Bytes, Text};
use heap_tuple::Align;

/// What a column holds, as a statement says it.
#[derive(Drop)]
pub enum NamedKind {
    Base(BaseType),
    /// An enum of a schema and a name.
    Enum(Text, Text),
    /// A dropped column: the length of its fields in bytes, or -1 where they say their own, and their alignment.
    Dropped { length: i16, align: Align },
}

/// A column of a table, as a statement says it.
#[derive(Drop)]
pub struct ColumnText {
    /// Empty where the column was dropped.
    pub name: Text,
    pub kind: NamedKind,
    /// The value of the rows that were written before the column was added.
    pub missing: Option<Bytes>,
}

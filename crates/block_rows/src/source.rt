use catalog::{Column, Database};
use heap_tuple::Shape;
use toast_read::ToastIndex;

/// What tells the values of a table's tuples.
#[derive(Clone, Copy)]
pub struct Source<'a> {
    pub columns: &'a [Column],
    /// How the fields of each column lie.
    pub shapes: &'a [Shape],
    /// The database that has the enums.
    pub database: &'a Database,
    /// The OID of the toast table.
    pub toast: Option<u32>,
    /// The chunks of the toast table.
    pub index: &'a ToastIndex,
}

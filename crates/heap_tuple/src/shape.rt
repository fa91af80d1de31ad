/// The alignment of a column's type, `attalign` of `pg_attribute`: the field begins at a multiple
/// of 1, 2, 4 or 8 bytes from the start of the tuple's data.
#[derive(Clone, Copy, Debug, PartialEq, Eq)]
pub enum Align {
    /// One byte, `c` in the catalog: no alignment.
    C,
    /// Two bytes, `s` in the catalog.
    S,
    /// Four bytes, `i` in the catalog.
    I,
    /// Eight bytes, `d` in the catalog.
    D,
}

/// How the fields of a column lie in a tuple.
#[derive(Clone, Copy, Debug, PartialEq, Eq)]
pub struct Shape {
    /// The number of bytes of each field, or -1 where a field says its own length in a varlena
    /// header: `attlen` of `pg_attribute`.
    pub length: i16,
    /// Where a field may begin.
    pub align: Align,
}

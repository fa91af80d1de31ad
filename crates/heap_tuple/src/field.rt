/// Where a value that doesn't fit its tuple is stored, `varatt_external` in `src/include/varatt.h`.
#[derive(Clone, Copy, Debug, PartialEq, Eq)]
pub struct ToastPointer {
    /// Bytes of the value before compression, with the four of a varlena header.
    pub rawsize: u32,
    /// Bytes of the value as its chunks hold them.
    pub size: u32,
    /// The compression method of the chunks' bytes: 0 is pglz, 1 lz4. It has two bits, and says nothing where
    /// the value isn't compressed.
    pub method: u8,
    /// The value's number among the chunks, `chunk_id`.
    pub value: u32,
    /// The OID of the TOAST table that has the chunks.
    pub relation: u32,
}

/// The field of a column in a tuple. The slices are parts of the tuple.
#[derive(Clone, Copy, Debug, PartialEq, Eq)]
pub enum Field<'a> {
    /// The column is null.
    Null,
    /// The tuple was written before the table had the column.
    Missing,
    /// The bytes of the value, without a varlena header.
    Bytes(&'a [u8]),
    /// What follows the four-byte header of a compressed varlena: its size and method before
    /// compression, and the compressed bytes.
    Compressed(&'a [u8]),
    /// The value is stored elsewhere.
    Pointer(ToastPointer),
}

/// Bytes of a tuple header in front of the null bitmap, `SizeofHeapTupleHeader` in
/// `src/include/access/htup_details.h`.
pub const HEADER_SIZE: usize = 23;

/// Place of `t_xmin` (four bytes): the inserting transaction.
pub const XMIN_AT: usize = 0;

/// Place of `t_xmax` (four bytes): the deleting or locking transaction, or a multixact.
pub const XMAX_AT: usize = 4;

/// Place of `t_cid` (four bytes): the command within its transaction.
pub const CID_AT: usize = 8;

/// Place of the block in `t_ctid`: two bytes of its upper half, then two of its lower half.
pub const CTID_BLOCK_AT: usize = 12;

/// Place of the line in `t_ctid` (two bytes).
pub const CTID_LINE_AT: usize = 16;

/// Place of `t_infomask2` (two bytes).
pub const INFOMASK2_AT: usize = 18;

/// Place of `t_infomask` (two bytes).
pub const INFOMASK_AT: usize = 20;

/// Place of `t_hoff` (one byte): where the data begins.
pub const HOFF_AT: usize = 22;

/// The low bits of `t_infomask2` that count the tuple's attributes, `HEAP_NATTS_MASK`.
pub const ATTRIBUTES_MASK: u16 = 0x07FF;

/// `HEAP_HASNULL`: the tuple has a null bitmap.
pub const HASNULL: u16 = 0x0001;

/// `HEAP_HASVARWIDTH`: the tuple has fields of variable width.
pub const HASVARWIDTH: u16 = 0x0002;

/// `HEAP_HASEXTERNAL`: the tuple has fields stored in the TOAST table.
pub const HASEXTERNAL: u16 = 0x0004;

/// `HEAP_XMAX_KEYSHR_LOCK`: xmax is a key-share locker.
pub const KEYSHR_LOCK: u16 = 0x0010;

/// `HEAP_XMAX_EXCL_LOCK`: xmax is an exclusive locker.
pub const EXCL_LOCK: u16 = 0x0040;

/// `HEAP_XMAX_LOCK_ONLY`: xmax, if valid, is only a locker.
pub const LOCK_ONLY: u16 = 0x0080;

/// `HEAP_XMIN_COMMITTED`: xmin is known to have committed.
pub const XMIN_COMMITTED: u16 = 0x0100;

/// `HEAP_XMIN_INVALID`: xmin is known to have aborted. With `XMIN_COMMITTED` the tuple is frozen.
pub const XMIN_INVALID: u16 = 0x0200;

/// `HEAP_XMAX_COMMITTED`: xmax is known to have committed.
pub const XMAX_COMMITTED: u16 = 0x0400;

/// `HEAP_XMAX_INVALID`: xmax is no transaction, or one known to have aborted.
pub const XMAX_INVALID: u16 = 0x0800;

/// `HEAP_XMAX_IS_MULTI`: xmax is a multixact.
pub const XMAX_IS_MULTI: u16 = 0x1000;

/// First byte of a TOAST pointer's varlena header (`src/include/varatt.h`, a short header of length
/// 0 in a little-endian build).
pub const POINTER_HEADER: u8 = 0x01;

/// Second byte of a TOAST pointer to an out-of-line value on disk, `VARTAG_ONDISK`.
pub const POINTER_TAG: u8 = 18;

/// Bytes of a TOAST pointer: two of header, sixteen of `varatt_external`.
pub const POINTER_SIZE: usize = 18;

/// Bytes of a long varlena header, `VARHDRSZ`.
pub const LONG_HEADER_SIZE: usize = 4;

/// Bytes of a compressed varlena's header, `VARHDRSZ_COMPRESSED`: the long header and the size and
/// method of what was compressed.
pub const COMPRESSED_HEADER_SIZE: usize = 8;

/// The low bits of `va_extinfo` that are the stored size, `VARLENA_EXTSIZE_MASK`; the upper two are
/// the compression method.
pub const EXTERNAL_SIZE_MASK: u32 = 0x3FFF_FFFF;

/// The bits below the compression method in `va_extinfo`, `VARLENA_EXTSIZE_BITS`.
pub const EXTERNAL_METHOD_SHIFT: u32 = 30;

/// Bytes of a page, `BLCKSZ` of a default build.
pub const PAGE_SIZE: usize = 8192;

/// Bytes of the page header, `SizeOfPageHeaderData` in `src/include/storage/bufpage.h`.
pub const PAGE_HEADER_SIZE: usize = 24;

/// Place of `pd_lower` in the header (two bytes): where the line pointers end.
pub const LOWER_AT: usize = 12;

/// Place of `pd_upper` in the header (two bytes): where the tuples begin.
pub const UPPER_AT: usize = 14;

/// Place of `pd_special` in the header (two bytes): where the tuples end.
pub const SPECIAL_AT: usize = 16;

/// Place of `pd_pagesize_version` in the header (two bytes).
pub const SIZE_VERSION_AT: usize = 18;

/// `pd_pagesize_version` of a page of 8192 bytes in layout version 4, `PG_PAGE_LAYOUT_VERSION`:
/// the size, with the version in its low byte.
pub const SIZE_VERSION: u16 = 8196;

/// Bytes of a line pointer, `sizeof(ItemIdData)` in `src/include/storage/itemid.h`.
pub const LINE_POINTER_SIZE: usize = 4;

/// Heap blocks whose bits one byte of the visibility map holds, `HEAPBLOCKS_PER_BYTE` in
/// `src/backend/access/heap/visibilitymap.c`.
pub const MAP_BLOCKS_PER_BYTE: u32 = 4;

/// Heap blocks whose bits one page of the visibility map holds, `HEAPBLOCKS_PER_PAGE`: four for
/// each of the 8168 bytes behind the page header.
pub const MAP_BLOCKS_PER_PAGE: u32 = 32672;

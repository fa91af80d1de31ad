/// Bytes of a page, `BLCKSZ` of a default build.
pub const PAGE_SIZE: u32 = 8192;

/// Pages of a segment file, `SLRU_PAGES_PER_SEGMENT` in `src/include/access/slru.h`.
pub const PAGES_PER_SEGMENT: u32 = 32;

/// Bits of the status of one transaction, `CLOG_BITS_PER_XACT` in `src/backend/access/transam/clog.c`.
pub const BITS_PER_XACT: u32 = 2;

/// Transactions whose status one byte holds, `CLOG_XACTS_PER_BYTE`.
pub const XACTS_PER_BYTE: u32 = 4;

/// Transactions whose status one page holds, `CLOG_XACTS_PER_PAGE`.
pub const XACTS_PER_PAGE: u32 = 32768;

/// The first transaction id that is given out, `FirstNormalTransactionId` in `src/include/access/transam.h`. Below it
/// stand the invalid id 0, the id 1 of bootstrap and the id 2 of frozen rows.
pub const FIRST_NORMAL_XID: u32 = 3;

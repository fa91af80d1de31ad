//! Where the fields of the control record stand, in bytes from its beginning (`ControlFileData` and its `CheckPoint`
//! in PostgreSQL's `src/include/catalog/pg_control.h`, on a machine with 8-byte alignment).

/// How long the part before the CRC is, which the CRC covers.
pub const CHECKED_BYTES: usize = 288;

pub const SYSTEM_IDENTIFIER: usize = 0;

pub const PG_CONTROL_VERSION: usize = 8;

pub const CATALOG_VERSION_NO: usize = 12;

pub const STATE: usize = 16;

pub const TIME: usize = 24;

pub const CHECK_POINT: usize = 32;

pub const NEXT_XID: usize = 64;

pub const NEXT_OID: usize = 72;

pub const NEXT_MULTI: usize = 76;

pub const NEXT_MULTI_OFFSET: usize = 80;

pub const OLDEST_XID: usize = 84;

pub const OLDEST_XID_DB: usize = 88;

pub const OLDEST_MULTI: usize = 92;

pub const OLDEST_MULTI_DB: usize = 96;

pub const OLDEST_COMMIT_TS_XID: usize = 112;

pub const NEWEST_COMMIT_TS_XID: usize = 116;

pub const MAX_ALIGN: usize = 204;

pub const BLCKSZ: usize = 216;

pub const RELSEG_SIZE: usize = 220;

pub const XLOG_BLCKSZ: usize = 224;

pub const XLOG_SEG_SIZE: usize = 228;

pub const NAME_DATA_LEN: usize = 232;

pub const INDEX_MAX_KEYS: usize = 236;

pub const TOAST_MAX_CHUNK_SIZE: usize = 240;

pub const LOBLKSIZE: usize = 244;

pub const DATA_CHECKSUM_VERSION: usize = 252;

pub const CRC: usize = 288;

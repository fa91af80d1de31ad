//! The control record's fields, and why a file isn't read.

use thiserror::Error;

/// How many bytes of `global/pg_control` the record takes; the rest of the file's 8192 bytes is zeros.
pub const RECORD_BYTES: usize = 296;

/// The counters of the last checkpoint that an upgrade carries over (`CheckPoint` of PostgreSQL's
/// `src/include/catalog/pg_control.h`).
#[derive(Clone, Copy, Debug, PartialEq, Eq)]
pub struct Counters {
    /// The next transaction id to give out: the epoch in the upper half, the 32-bit id in the lower.
    pub next_xid: u64,
    /// The next object id.
    pub next_oid: u32,
    /// The next multixact id.
    pub next_multi: u32,
    /// The next place in `pg_multixact/members`.
    pub next_multi_offset: u32,
    /// The oldest transaction id that a table may still hold unfrozen (`datfrozenxid`), over all databases.
    pub oldest_xid: u32,
    /// The object id of the database with that transaction id.
    pub oldest_xid_db: u32,
    /// The oldest multixact id that a table may still hold (`datminmxid`), over all databases.
    pub oldest_multi: u32,
    /// The object id of the database with that multixact id.
    pub oldest_multi_db: u32,
}

/// The fields of `global/pg_control` that an upgrade reads (`ControlFileData`).
#[derive(Clone, Copy, Debug, PartialEq, Eq)]
pub struct Control {
    /// The number that tells this cluster from all others.
    pub system_identifier: u64,
    /// `PG_CONTROL_VERSION`.
    pub control_version: u32,
    /// `CATALOG_VERSION_NO`.
    pub catalog_version: u32,
    /// `DBState`: 0 starting up, 1 shut down, 2 shut down in recovery, 3 shutting down, 4 in crash recovery, 5 in
    /// archive recovery, 6 in production.
    pub state: u32,
    /// When the record was last written, in seconds since 1970.
    pub time: i64,
    /// The place of the last checkpoint record in the write-ahead log.
    pub checkpoint: u64,
    /// The counters in the copy of that checkpoint record.
    pub counters: Counters,
    /// The strictest alignment of a data type, in bytes.
    pub max_align: u32,
    /// The size of a page, in bytes.
    pub blcksz: u32,
    /// The size of a relation's segment file, in pages.
    pub relseg_size: u32,
    /// The size of a page of the write-ahead log, in bytes.
    pub xlog_blcksz: u32,
    /// The size of a segment of the write-ahead log, in bytes.
    pub xlog_seg_size: u32,
    /// The size of a name in the catalogs, in bytes.
    pub name_data_len: u32,
    /// The most columns that an index has.
    pub index_max_keys: u32,
    /// The size of a chunk of a value out of line, in bytes.
    pub toast_chunk: u32,
    /// The size of a chunk of a large object, in bytes.
    pub loblksize: u32,
    /// 0 where pages have no checksums, 1 where they have.
    pub checksum_version: u32,
    /// The CRC-32C that the record holds.
    pub crc: u32,
}

/// Why the bytes of a `global/pg_control` aren't read.
#[derive(Clone, Copy, Debug, PartialEq, Eq, Error)]
pub enum ControlError {
    /// The file has fewer bytes than the record.
    #[error("the file has fewer bytes than a control record")]
    Short,
    /// The CRC isn't that of the record's bytes.
    #[error("the record's CRC is wrong")]
    Crc,
    /// The record has this `PG_CONTROL_VERSION`, and not 1300.
    #[error("the record has control version {0}")]
    ControlVersion(u32),
    /// The record has this `CATALOG_VERSION_NO`, which is not the release's.
    #[error("the record has catalog version {0}")]
    CatalogVersion(u32),
}

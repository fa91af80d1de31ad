// Why two clusters are refused.
use control_file::Side;

/// A field in which both control files must agree (`check_control_data` of `pg_upgrade/controldata.c`).
#[derive(Clone, Copy, Debug, PartialEq, Eq)]
pub enum ControlField {
    /// `maxAlign`
    MaxAlign,
    /// `blcksz`
    BlckSz,
    /// `relseg_size`
    RelSegSize,
    /// `xlog_blcksz`
    XlogBlckSz,
    /// `xlog_seg_size`
    XlogSegSize,
    /// `nameDataLen`
    NameDataLen,
    /// `indexMaxKeys`
    IndexMaxKeys,
    /// `toast_max_chunk_size`
    ToastChunk,
    /// `loblksize`
    LoblkSize,
    /// `data_checksum_version`
    Checksums,
}

/// Why two clusters are refused by their directories, releases and control files, in the order in which the conditions are
/// tested; within one, the old side before the new one.
#[derive(Clone, Copy, Debug, PartialEq, Eq)]
pub enum ControlRefusal {
    /// One of the two data directories is under the other, or they are the same.
    Overlap,
    /// The data directory is no directory.
    MissingDir(Side),
    /// `PG_VERSION` is no file.
    MissingVersion(Side),
    /// `PG_VERSION` is not that of the side's release.
    WrongVersion(Side),
    /// `postmaster.pid` stands.
    Running(Side),
    /// The old cluster has no `global/pg_control` and has `global/pg_control.old`.
    OldDisabled,
    /// `global/pg_control` is no file.
    NoControl(Side),
    /// The control file has fewer than 296 bytes.
    ControlShort(Side),
    /// The control file's CRC is wrong.
    ControlCrc(Side),
    /// The control file's version is this and not 1300.
    ControlVersion(Side, u32),
    /// The control file's catalog version is this and not the release's.
    CatalogVersion(Side, u32),
    /// The cluster's state is this and not 1, shut down.
    NotShutDown(Side, u32),
    /// The block size is not 8192, or a segment has no blocks.
    BlockSize(Side),
    /// A field is one number in the old control file and another in the new one.
    ControlDiffers(ControlField, u32, u32),
}

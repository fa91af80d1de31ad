// Why an upgrade is refused.
use control_checks::ControlField;
use control_file::Side;
use fs_model::Path;

/// Why an upgrade is refused. The first condition that holds, in this order, is answered; within one, the old side before
/// the new one. A refused upgrade has changed nothing. OIDs are those of the old cluster.
#[derive(Drop)]
pub enum Refusal {
    /// One of the two data directories is under the other, or they are the same.
    Overlap,
    /// The data directory is no directory.
    MissingDir(Side),
    /// `PG_VERSION` is no file.
    MissingVersion(Side),
    /// `PG_VERSION` is not that of the side's release.
    WrongVersion(Side),
    /// `postmaster.pid` stands.
    Running(Side),
    /// The old cluster has no `global/pg_control` and has `global/pg_control.old`.
    OldDisabled,
    /// `global/pg_control` is no file.
    NoControl(Side),
    /// The control file has fewer than 296 bytes.
    ControlShort(Side),
    /// The control file's CRC is wrong.
    ControlCrc(Side),
    /// The control file's version is this and not 1300.
    ControlVersion(Side, u32),
    /// The control file's catalog version is this and not the release's.
    CatalogVersion(Side, u32),
    /// The cluster's state is this and not 1, shut down.
    NotShutDown(Side, u32),
    /// The block size is not 8192, or a segment has no blocks.
    BlockSize(Side),
    /// A field is one number in the old control file and another in the new one.
    ControlDiffers(ControlField, u32, u32),
    /// `pg_twophase` stands and isn't an empty directory: there are prepared transactions.
    Prepared(Side),
    /// The server reads no catalog: the line of the catalog text, and the number of the cause.
    CatalogText(Side, u64, u8),
    /// The old cluster has more databases or relations than can be upgraded, or a location is too long.
    TooMany,
    /// The roles that made the two clusters have different names.
    InstallUser,
    /// The new cluster has a role besides the one that made it.
    NewRoles,
    /// This database is `template0` and may be connected to, or another one and may not.
    ConnectFlag(u32),
    /// Database, table and column (counted from 1): the first column of a type of catalog OIDs.
    RegColumn(u32, u32, u16),
    /// Database, table and column (counted from 1): the first column of type `aclitem`.
    AclColumn(u32, u32, u16),
    /// The new cluster's catalog isn't the one that it starts with.
    NewNotEmpty,
    /// The least path in the new cluster that is in the way.
    NewUsed(Path),
    /// A path of a tablespace that isn't as it should be.
    TablespaceDir(Path),
    /// The first path that is missing or of another kind.
    MissingFile(Path),
    /// The least path in the new cluster that is a name of a file of the old one.
    SharedInode(Path),
    /// The first directory of a relation that is on another device than the new one.
    DeviceDiffers(Path),
    /// `global/pg_control.old` stands in the old cluster.
    ControlOldExists,
}

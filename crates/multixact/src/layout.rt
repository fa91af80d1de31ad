/// Bytes of an offset, `sizeof(MultiXactOffset)` in `src/include/c.h`.
pub const OFFSET_SIZE: u32 = 4;

/// Offsets on one page, `MULTIXACT_OFFSETS_PER_PAGE` in `src/backend/access/transam/multixact.c`.
pub const OFFSETS_PER_PAGE: u32 = 2048;

/// Bytes of a transaction id, `sizeof(TransactionId)`.
pub const XID_SIZE: u32 = 4;

/// Members whose flag bytes and ids stand together, `MULTIXACT_MEMBERS_PER_MEMBERGROUP`; also the bytes of their flags.
pub const MEMBERS_PER_GROUP: u32 = 4;

/// Bytes of such a group, `MULTIXACT_MEMBERGROUP_SIZE`: four flag bytes and then four ids.
pub const GROUP_SIZE: u32 = 20;

/// Members on one page, `MULTIXACT_MEMBERS_PER_PAGE`: 409 groups, behind which 12 bytes stand unused.
pub const MEMBERS_PER_PAGE: u32 = 1636;

/// The status of a member that changed no key column, `MultiXactStatusNoKeyUpdate` in `src/include/access/multixact.h`.
/// The statuses below it are locks.
pub const NO_KEY_UPDATE_STATUS: u8 = 4;

/// The status of a member that changed a key column or deleted the row, `MultiXactStatusUpdate`.
pub const UPDATE_STATUS: u8 = 5;

use std::alloc::{AllocError, AllocFailed};
use thiserror::Error;

/// Why the catalog refuses an object. Where several causes hold, the first of `NoSuch`, `TooMany`,
/// `OidTaken`, `NameTaken` and `FileTaken` is answered.
#[derive(Clone, Copy, Debug, PartialEq, Eq, Error)]
pub enum CatalogError {
    /// An OID is below 16384 (`FirstNormalObjectId` of `access/transam.h`), or in use in its space.
    #[error("an OID is taken")]
    OidTaken = 1,
    /// The name is in use in its space.
    #[error("a name is taken")]
    NameTaken = 2,
    /// A file number is below 16384, or in use in its database and tablespace.
    #[error("a file number is taken")]
    FileTaken = 3,
    /// An owner, schema, tablespace, database, enum, table or key's column isn't there.
    #[error("no such object")]
    NoSuch = 4,
    /// More than 1,600 columns, more than 32 keys, or a label of more than 63 bytes.
    #[error("too many columns or keys, or too long a label")]
    TooMany = 5,
    /// Memory lacked.
    #[error("out of memory")]
    OutOfMemory = 6,
}

impl From<AllocError> for CatalogError {
    ghost use Rattle.std.specs.Prelude.{◌≡◌};
    ghost use Rattle.catalog.specs.declared.error.CatalogError.TheVariants.{OutOfMemory};

    ghost from_gives = { λ _ e. e ≡ OutOfMemory };

    fn from(_: AllocError) -> CatalogError {
        CatalogError::OutOfMemory
    }
}

impl<T: Drop> From<AllocFailed<T>> for CatalogError {
    ghost use Rattle.std.specs.Prelude.{◌≡◌};
    ghost use Rattle.catalog.specs.declared.error.CatalogError.TheVariants.{OutOfMemory};

    ghost from_gives = { λ _ e. e ≡ OutOfMemory };

    fn from(_: AllocFailed<T>) -> CatalogError {
        CatalogError::OutOfMemory
    }
}

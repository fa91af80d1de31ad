use control_file::Side;
use std::alloc::{AllocError, AllocFailed};
use thiserror::Error;

/// Why two catalogs have no file map: for the least OID of the first database that has such a one.
#[derive(Clone, Copy, Debug, PartialEq, Eq, Error)]
pub enum MapError {
    /// The relation of that OID in that database is in the cluster of this side alone.
    #[error("relation {1} of database {0} is in one cluster alone")]
    Unmatched(u32, u32, Side),
    /// Schema or name of the relation of that OID in that database differ.
    #[error("relation {1} of database {0} has another name in the new cluster")]
    NameDiffers(u32, u32),
    /// Memory lacked.
    #[error("out of memory")]
    OutOfMemory,
}

impl From<AllocError> for MapError {
    ghost use Rattle.std.specs.Prelude.{◌≡◌};
    ghost use Rattle.relation_map.specs.declared.error.MapError.TheVariants.{OutOfMemory};

    ghost from_gives = { λ _ e. e ≡ OutOfMemory };

    fn from(_: AllocError) -> MapError {
        MapError::OutOfMemory
    }
}

impl<T: Drop> From<AllocFailed<T>> for MapError {
    ghost use Rattle.std.specs.Prelude.{◌≡◌};
    ghost use Rattle.relation_map.specs.declared.error.MapError.TheVariants.{OutOfMemory};

    ghost from_gives = { λ _ e. e ≡ OutOfMemory };

    fn from(_: AllocFailed<T>) -> MapError {
        MapError::OutOfMemory
    }
}

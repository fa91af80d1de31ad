// The directories of a database in tablespaces, each found once.
ghost use Rattle.std.specs.Prelude.{◌≡◌, IfOk, IfErr, OnOk};
ghost use Rattle.relation_files.specs.Sites.{site_at};
ghost use Rattle.relation_map.specs.declared.error.MapError.TheVariants.{OutOfMemory};
ghost use Rattle.relation_map.specs.Directories.{database_dir, AreDirectories};

use crate::error::MapError;
use fs_maps::InodeMap;
use fs_model::Path;
use relation_files::{ClusterSite, Relation, relation_dir};
use std::alloc::{AllocError, Global};

fn copy_of(path: &Path) -> Result<Path, AllocError>
    ensures { IfOk result (λ copy. copy ≡ path.now) }
{
    path.clone()
}

// The directory of a database in a tablespace.
fn find_directory(
    alloc: Global,
    site: &ClusterSite,
    database: u32,
    tablespace: u32,
) -> Result<Path, MapError>
    ensures path { IfOk result (λ path. path ≡ database_dir (site_at site.now) database tablespace) }
    ensures lack { IfErr result (λ error. error ≡ OutOfMemory) }
{
    let relation = Relation {
        database,
        tablespace,
        file: 0,
    };
    match relation_dir(alloc, site, relation) {
        Ok(path) => Ok(path),
        Err(_) => Err(MapError::OutOfMemory),
    }
}

/// The directory of a database in a tablespace, which is kept from then on.
pub(crate) fn directory_in(
    alloc: Global,
    site: &ClusterSite,
    database: u32,
    directories: &mut InodeMap<Path>,
    tablespace: u32,
) -> Result<Path, MapError>
    requires { AreDirectories (site_at site.now) database directories.old }
    ensures path { IfOk result (λ path. path ≡ database_dir (site_at site.now) database tablespace) }
    ensures kept { OnOk result (AreDirectories (site_at site.now) database directories.new) }
    ensures lack { IfErr result (λ error. error ≡ OutOfMemory) }
{
    if let Some(path) = directories.get(tablespace as u64) {
        return Ok(copy_of(path)?);
    }
    let path = find_directory(alloc, site, database, tablespace)?;
    let kept = copy_of(&path)?;
    directories.insert(tablespace as u64, kept)?;
    Ok(path)
}

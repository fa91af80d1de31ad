// The paths of what a replay makes.
ghost use Rattle.std.specs.Prelude.{◌≡◌, ◌++◌, ◌∷◌, [], ℕ, true, Some, None, if◌then◌else◌, IfOk, OnOk};
ghost use Rattle.std.specs.Option.{option_map};
ghost use Rattle.std.specs.List.{find};
ghost use Rattle.std.specs.FinMap.{get};
ghost use Rattle.std.specs.Fmt.{decimal};
ghost use Rattle.fs_model.specs.Names.{is_name};
ghost use Rattle.catalog.specs.Spaces.{tablespace_has};
ghost use Rattle.catalog_server.specs.ReplayNames.{databases_path};
ghost use Rattle.server_profile.specs.Directories.{first_of};

use crate::relations::DEFAULT_TABLESPACE;
use catalog::{Catalog, Tablespace};
use control_file::Release;
use fs_maps::InodeMap;
use fs_model::{Path, PathError};
use itoa::Buffer;
use std::alloc::{AllocError, Global};

/// The path with one name more.
pub(crate) fn child(path: &Path, name: &str) -> Result<Path, AllocError>
    requires { is_name name.now ≡ true }
    ensures { IfOk result (λ p. p ≡ path.now ++ name.now ∷ []) }
{
    match path.join(&[name]) {
        Ok(path) => Ok(path),
        Err(PathError::OutOfMemory) => Err(AllocError),
        Err(PathError::Bad) => unreachable!(),
    }
}

/// The path with a number as one name more.
pub(crate) fn numbered(path: &Path, number: u32) -> Result<Path, AllocError>
    ensures { IfOk result (λ p. p ≡ path.now ++ decimal number ∷ []) }
{
    let mut buffer = Buffer::new();
    child(path, buffer.format(number))
}

/// The directory of a tablespace in which each database has its own.
pub(crate) fn databases_path(
    root: &Path,
    release: Release,
    tablespace: &Tablespace,
) -> Result<Path, AllocError>
    ensures { IfOk result (λ p. p ≡ databases_path root.now release tablespace.now) }
{
    if tablespace.oid == DEFAULT_TABLESPACE {
        child(root, "base")
    } else {
        child(&tablespace.location, release.dir_name())
    }
}

// The directory of one tablespace more, unless there is one of that OID.
fn add_directory(
    directories: &mut InodeMap<Path>,
    root: &Path,
    release: Release,
    tablespace: &Tablespace,
) -> Result<(), AllocError>
    ensures { OnOk result ((oid : ℕ) → get directories.new oid ≡ first_of (get directories.old oid) (if tablespace_has oid tablespace.now then Some (databases_path root.now release tablespace.now) else None)) }
{
    let oid = tablespace.oid as u64;
    match directories.get(oid) {
        Some(_) => Ok(()),
        None => directories.insert(oid, databases_path(root, release, tablespace)?),
    }
}

/// The directories of a catalog's tablespaces, by their OIDs.
pub(crate) fn directories(
    alloc: Global,
    root: &Path,
    release: Release,
    catalog: &Catalog,
) -> Result<InodeMap<Path>, AllocError>
    ensures { IfOk result (λ directories. (oid : ℕ) → get directories oid ≡ option_map (databases_path root.now release) (find (tablespace_has oid) catalog.now.tablespaces)) }
{
    let mut directories = InodeMap::new(alloc);
    let count = catalog.tablespace_count();
    for i in 0..count {
        match catalog.tablespace_at(i) {
            None => return Err(AllocError),
            Some(tablespace) => add_directory(&mut directories, root, release, tablespace)?,
        }
    }
    Ok(directories)
}

// The names that a replay makes, by the catalogs before and after it.
ghost use Rattle.std.specs.Prelude.{◌≡◌, ◌++◌, ◌∷◌, [], IfOk, IfErr, OnOk, codes};
ghost use Rattle.std.specs.List.{flat_map};
ghost use Rattle.std.specs.Fmt.{decimal};
ghost use Rattle.control_file.specs.Version.{version_text_of};
ghost use Rattle.catalog_server.specs.ReplayNames.{new_names, tablespace_names, database_names, base_path, databases_path, link_path};

use crate::held::add_held;
use crate::paths::{child, databases_path, numbered};
use catalog::{Catalog, Database, Tablespace};
use catalog_server::ServerError;
use control_file::Release;
use fs_model::{Bytes, Path};
use new_names::{NewName, NewNode};
use std::alloc::{AllocError, Global};

// The release's directory at a tablespace's location, and the link to the location.
fn add_location(
    names: &mut Vec<NewName>,
    root: &Path,
    release: Release,
    tablespace: &Tablespace,
) -> Result<(), AllocError>
    ensures { OnOk result (names.new.items ≡ names.old.items ++ record { path = databases_path root.now release tablespace.now; node = NewNode.Dir } ∷ record { path = link_path root.now tablespace.now.oid; node = NewNode.Sym tablespace.now.location } ∷ []) }
{
    let links = child(root, "pg_tblspc")?;
    names.push(NewName {
        path: databases_path(root, release, tablespace)?,
        node: NewNode::Dir,
    })?;
    names.push(NewName {
        path: numbered(&links, tablespace.oid)?,
        node: NewNode::Sym(tablespace.location.clone()?),
    })?;
    Ok(())
}

// A tablespace's names, where it is new.
fn add_tablespace(
    names: &mut Vec<NewName>,
    root: &Path,
    release: Release,
    before: &Catalog,
    tablespace: &Tablespace,
) -> Result<(), AllocError>
    ensures { OnOk result (names.new.items ≡ names.old.items ++ tablespace_names root.now release before.now tablespace.now) }
{
    match before.tablespace(tablespace.oid) {
        Some(_) => Ok(()),
        None => add_location(names, root, release, tablespace),
    }
}

// The names of the new tablespaces.
fn add_tablespaces(
    names: &mut Vec<NewName>,
    root: &Path,
    release: Release,
    before: &Catalog,
    after: &Catalog,
) -> Result<(), AllocError>
    ensures { OnOk result (names.new.items ≡ names.old.items ++ flat_map (tablespace_names root.now release before.now) after.now.tablespaces) }
{
    let count = after.tablespace_count();
    for i in 0..count {
        match after.tablespace_at(i) {
            None => return Ok(()),
            Some(tablespace) => add_tablespace(names, root, release, before, tablespace)?,
        }
    }
    Ok(())
}

// The directory of a database, with the file of its release.
fn add_directory(
    alloc: Global,
    names: &mut Vec<NewName>,
    root: &Path,
    release: Release,
    oid: u32,
) -> Result<(), AllocError>
    ensures { OnOk result (names.new.items ≡ names.old.items ++ record { path = base_path root.now ++ decimal oid ∷ []; node = NewNode.Dir } ∷ record { path = base_path root.now ++ decimal oid ∷ codes "PG_VERSION" ∷ []; node = NewNode.File (version_text_of release) } ∷ []) }
{
    let base = child(root, "base")?;
    let directory = numbered(&base, oid)?;
    let version = child(&directory, "PG_VERSION")?;
    let text = Bytes::new(Vec::from_slice(alloc, release.version_text())?);
    names.push(NewName {
        path: directory,
        node: NewNode::Dir,
    })?;
    names.push(NewName {
        path: version,
        node: NewNode::File(text),
    })?;
    Ok(())
}

// A database's names, where it is new.
fn add_database(
    alloc: Global,
    names: &mut Vec<NewName>,
    root: &Path,
    release: Release,
    before: &Catalog,
    database: &Database,
) -> Result<(), AllocError>
    ensures { OnOk result (names.new.items ≡ names.old.items ++ database_names root.now release before.now database.now) }
{
    match before.database(database.oid) {
        Some(_) => Ok(()),
        None => add_directory(alloc, names, root, release, database.oid),
    }
}

// The names of the new databases.
fn add_databases(
    alloc: Global,
    names: &mut Vec<NewName>,
    root: &Path,
    release: Release,
    before: &Catalog,
    after: &Catalog,
) -> Result<(), AllocError>
    ensures { OnOk result (names.new.items ≡ names.old.items ++ flat_map (database_names root.now release before.now) after.now.databases) }
{
    let count = after.database_count();
    for i in 0..count {
        match after.database_at(i) {
            None => return Ok(()),
            Some(database) => add_database(alloc, names, root, release, before, database)?,
        }
    }
    Ok(())
}

fn names_between(
    alloc: Global,
    root: &Path,
    release: Release,
    before: &Catalog,
    after: &Catalog,
) -> Result<Vec<NewName>, AllocError>
    ensures { IfOk result (λ names. names.items ≡ new_names root.now release before.now after.now) }
{
    let mut names = Vec::new(alloc);
    add_tablespaces(&mut names, root, release, before, after)?;
    add_databases(alloc, &mut names, root, release, before, after)?;
    add_held(alloc, &mut names, root, release, before, after)?;
    Ok(names)
}

/// All names but the catalog text's. `OutOfMemory` alone is answered.
pub(crate) fn new_names(
    alloc: Global,
    root: &Path,
    release: Release,
    before: &Catalog,
    after: &Catalog,
) -> Result<Vec<NewName>, ServerError>
    ensures names { IfOk result (λ names. names.items ≡ new_names root.now release before.now after.now) }
    ensures error { IfErr result (λ e. e ≡ ServerError.OutOfMemory) }
{
    match names_between(alloc, root, release, before, after) {
        Ok(names) => Ok(names),
        Err(_) => Err(ServerError::OutOfMemory),
    }
}

// The names of what databases have: their directories in tablespaces, and the main files of their relations.
ghost use Rattle.std.specs.Prelude.{◌≡◌, ◌++◌, ℕ, OnOk};
ghost use Rattle.std.specs.Option.{option_map};
ghost use Rattle.std.specs.List.{find, flat_map};
ghost use Rattle.std.specs.FinMap.{get};
ghost use Rattle.catalog.specs.Spaces.{tablespace_has};
ghost use Rattle.catalog_server.specs.ReplayNames.{databases_path, holding_names, held_names};
ghost use Rattle.server_profile.specs.Directories.{file_in, relation_in};

use crate::known::Known;
use crate::paths::{databases_path, directories, numbered};
use crate::relations::{DEFAULT_TABLESPACE, relations_in, relations_of};
use catalog::{Catalog, Database, Tablespace};
use catalog_server::Relation;
use control_file::Release;
use fs_maps::InodeMap;
use fs_model::{Bytes, Path};
use new_names::{NewName, NewNode};
use std::alloc::{AllocError, Global};

// A database's directory in a tablespace that newly holds a relation of it.
fn add_holding(
    names: &mut Vec<NewName>,
    root: &Path,
    release: Release,
    database: u32,
    earlier: &Known,
    relations: &Known,
    tablespace: &Tablespace,
) -> Result<(), AllocError>
    ensures { OnOk result (names.new.items ≡ names.old.items ++ holding_names root.now release database earlier.now relations.now tablespace.now) }
{
    let oid = tablespace.oid;
    if oid != DEFAULT_TABLESPACE && relations.stands_in(oid) && !earlier.stands_in(oid) {
        let directory = databases_path(root, release, tablespace)?;
        names.push(NewName {
            path: numbered(&directory, database)?,
            node: NewNode::Dir,
        })?;
    }
    Ok(())
}

fn add_holdings(
    names: &mut Vec<NewName>,
    root: &Path,
    release: Release,
    after: &Catalog,
    database: u32,
    earlier: &Known,
    relations: &Known,
) -> Result<(), AllocError>
    ensures { OnOk result (names.new.items ≡ names.old.items ++ flat_map (holding_names root.now release database earlier.now relations.now) after.now.tablespaces) }
{
    let count = after.tablespace_count();
    for i in 0..count {
        match after.tablespace_at(i) {
            None => return Ok(()),
            Some(tablespace) => {
                add_holding(
                    names, root, release, database, earlier, relations, tablespace,
                )?
            }
        }
    }
    Ok(())
}

// An empty file in a database's directory.
fn add_file(
    alloc: Global,
    names: &mut Vec<NewName>,
    directory: &Path,
    database: u32,
    file: u32,
) -> Result<(), AllocError>
    ensures { OnOk result (names.new.items ≡ names.old.items ++ file_in directory.now database file) }
{
    let directory = numbered(directory, database)?;
    names.push(NewName {
        path: numbered(&directory, file)?,
        node: NewNode::File(Bytes::new(Vec::new(alloc))),
    })?;
    Ok(())
}

// A relation's main file, where it is new.
fn add_relation(
    alloc: Global,
    names: &mut Vec<NewName>,
    directories: &InodeMap<Path>,
    database: u32,
    earlier: &Known,
    relation: &Relation,
) -> Result<(), AllocError>
    ensures { OnOk result (names.new.items ≡ names.old.items ++ relation_in directories.now database earlier.now relation.now) }
{
    if earlier.has(relation.oid) {
        return Ok(());
    }
    match directories.get(relation.tablespace as u64) {
        None => Ok(()),
        Some(directory) => add_file(alloc, names, directory, database, relation.file),
    }
}

fn add_relations(
    alloc: Global,
    names: &mut Vec<NewName>,
    directories: &InodeMap<Path>,
    database: u32,
    earlier: &Known,
    relations: &Known,
) -> Result<(), AllocError>
    ensures { OnOk result (names.new.items ≡ names.old.items ++ flat_map (relation_in directories.now database earlier.now) relations.now) }
{
    let count = relations.count();
    for i in 0..count {
        match relations.relation_at(i) {
            None => return Ok(()),
            Some(relation) => add_relation(alloc, names, directories, database, earlier, relation)?,
        }
    }
    Ok(())
}

// What a database has in tablespaces.
fn add_database(
    alloc: Global,
    names: &mut Vec<NewName>,
    root: &Path,
    release: Release,
    before: &Catalog,
    after: &Catalog,
    directories: &InodeMap<Path>,
    database: &Database,
) -> Result<(), AllocError>
    requires { (oid : ℕ) → get directories.now oid ≡ option_map (databases_path root.now release) (find (tablespace_has oid) after.now.tablespaces) }
    ensures { OnOk result (names.new.items ≡ names.old.items ++ held_names root.now release before.now after.now database.now) }
{
    let oid = database.oid;
    let held_before = relations_in(alloc, before, oid)?;
    let earlier = Known::new(alloc, held_before)?;
    let held_now = relations_of(alloc, database)?;
    let relations = Known::new(alloc, held_now)?;
    add_holdings(names, root, release, after, oid, &earlier, &relations)?;
    add_relations(alloc, names, directories, oid, &earlier, &relations)
}

/// The directories of databases in tablespaces, and the files of the new relations.
pub(crate) fn add_held(
    alloc: Global,
    names: &mut Vec<NewName>,
    root: &Path,
    release: Release,
    before: &Catalog,
    after: &Catalog,
) -> Result<(), AllocError>
    ensures { OnOk result (names.new.items ≡ names.old.items ++ flat_map (held_names root.now release before.now after.now) after.now.databases) }
{
    let directories = directories(alloc, root, release, after)?;
    let count = after.database_count();
    for i in 0..count {
        match after.database_at(i) {
            None => return Ok(()),
            Some(database) => {
                add_database(
                    alloc,
                    names,
                    root,
                    release,
                    before,
                    after,
                    &directories,
                    database,
                )?
            }
        }
    }
    Ok(())
}

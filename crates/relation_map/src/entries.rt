// The pairs of a database.
ghost use Rattle.std.specs.Prelude.{◌≡◌, ◌++◌, map, IfOk, IfErr, OnOk};
ghost use Rattle.std.specs.Option.{option_copied};
ghost use Rattle.relation_files.specs.Sites.{site_at};
ghost use Rattle.relation_map.specs.declared.error.MapError.TheVariants.{OutOfMemory};
ghost use Rattle.relation_map.specs.Directories.{AreDirectories};
ghost use Rattle.relation_map.specs.Pairs.{dir_if, entry_with, entry_among};

use crate::directories::directory_in;
use crate::error::MapError;
use crate::map::MapEntry;
use crate::named::Named;
use crate::relations::Relations;
use fs_maps::InodeMap;
use fs_model::Path;
use relation_files::ClusterSite;
use std::alloc::Global;

// The directory of a relation that may not be there.
fn directory_if(
    alloc: Global,
    site: &ClusterSite,
    database: u32,
    directories: &mut InodeMap<Path>,
    named: Option<&Named>,
) -> Result<Path, MapError>
    requires { AreDirectories (site_at site.now) database directories.old }
    ensures path { IfOk result (λ path. path ≡ dir_if (site_at site.now) database (option_copied named.entry)) }
    ensures kept { OnOk result (AreDirectories (site_at site.now) database directories.new) }
    ensures lack { IfErr result (λ error. error ≡ OutOfMemory) }
{
    match named {
        None => Ok(Path::root(alloc)),
        Some(named) => directory_in(alloc, site, database, directories, named.tablespace),
    }
}

// A relation of the old cluster with its like in the new one.
fn entry_of(
    alloc: Global,
    old_site: &ClusterSite,
    new_site: &ClusterSite,
    database: u32,
    from: &mut InodeMap<Path>,
    to: &mut InodeMap<Path>,
    old: &Named,
    new: Option<&Named>,
) -> Result<MapEntry, MapError>
    requires from { AreDirectories (site_at old_site.now) database from.old }
    requires to { AreDirectories (site_at new_site.now) database to.old }
    ensures entry { IfOk result (λ entry. entry ≡ entry_with (site_at old_site.now) (site_at new_site.now) database old.now (option_copied new.entry)) }
    ensures from { OnOk result (AreDirectories (site_at old_site.now) database from.new) }
    ensures to { OnOk result (AreDirectories (site_at new_site.now) database to.new) }
    ensures lack { IfErr result (λ error. error ≡ OutOfMemory) }
{
    Ok(MapEntry {
        oid: old.oid,
        from_dir: directory_in(alloc, old_site, database, from, old.tablespace)?,
        to_dir: directory_if(alloc, new_site, database, to, new)?,
        file: old.file,
    })
}

/// Adds the pairs of a database, in the order of its relations in the old cluster.
pub(crate) fn add_entries(
    alloc: Global,
    old_site: &ClusterSite,
    new_site: &ClusterSite,
    database: u32,
    old: &Relations,
    new: &Relations,
    entries: &mut Vec<MapEntry>,
) -> Result<(), MapError>
    ensures entries { OnOk result (entries.new.items ≡ entries.old.items ++ map (entry_among (site_at old_site.now) (site_at new_site.now) database new.now) old.now) }
    ensures lack { IfErr result (λ error. error ≡ OutOfMemory) }
{
    let mut from = InodeMap::new(alloc);
    let mut to = InodeMap::new(alloc);
    let count = old.count();
    for i in 0..count {
        match old.at(i) {
            None => return Ok(()),
            Some(named) => entries.push(entry_of(
                alloc,
                old_site,
                new_site,
                database,
                &mut from,
                &mut to,
                named,
                new.of(named.oid),
            )?)?,
        }
    }
    Ok(())
}

// Building the file map.
ghost use Rattle.std.specs.Prelude.{◌≡◌, ◌≢◌, ◌++◌, ℕ, map, None, IfOk, IfErr, OnOk};
ghost use Rattle.std.specs.Option.{option_copied};
ghost use Rattle.std.specs.List.{find, flat_map, AllByRecursion};
ghost use Rattle.catalog.specs.Spaces.{database_oids, database_has};
ghost use Rattle.relation_files.specs.Sites.{site_at};
ghost use Rattle.relation_map.specs.declared.error.MapError.TheVariants.{OutOfMemory};
ghost use Rattle.relation_map.specs.Pairs.{relations_if, fault_among, fault_at, entry_among, database_entries, entries_of, HasNoFault, AreMatched, IsLeastFault, IsFirstFault, IsFirstFaultOf, new_alone};

use crate::entries::add_entries;
use crate::error::MapError;
use crate::faults::first_fault;
use crate::map::{FileMap, MapEntry};
use crate::relations::relations_if;
use catalog::{Catalog, Database};
use control_file::{Job, Release};
use relation_files::ClusterSite;
use std::alloc::Global;

// Adds the pairs of a database, unless a relation of it has no like.
fn add_database(
    alloc: Global,
    old_site: &ClusterSite,
    new_site: &ClusterSite,
    database: u32,
    old: Option<&Database>,
    new: Option<&Database>,
    entries: &mut Vec<MapEntry>,
) -> Result<(), MapError>
    ensures entries { OnOk result (entries.new.items ≡ entries.old.items ++ map (entry_among (site_at old_site.now) (site_at new_site.now) database (relations_if (option_copied new.entry))) (relations_if (option_copied old.entry))) }
    ensures matched { OnOk result ((oid : ℕ) → fault_among database (relations_if (option_copied old.entry)) (relations_if (option_copied new.entry)) oid ≡ None) }
    ensures fault { IfErr result (λ error. error ≢ OutOfMemory → IsLeastFault (fault_among database (relations_if (option_copied old.entry)) (relations_if (option_copied new.entry))) error) }
{
    let old = relations_if(alloc, old)?;
    let new = relations_if(alloc, new)?;
    if let Some(fault) = first_fault(database, &old, &new) {
        return Err(fault);
    }
    add_entries(alloc, old_site, new_site, database, &old, &new, entries)
}

// Adds the pairs of the old cluster's databases.
fn add_databases(
    alloc: Global,
    old_site: &ClusterSite,
    new_site: &ClusterSite,
    entries: &mut Vec<MapEntry>,
) -> Result<(), MapError>
    ensures entries { OnOk result (entries.new.items ≡ entries.old.items ++ flat_map (database_entries (site_at old_site.now) (site_at new_site.now) new_site.now.catalog.now) old_site.now.catalog.now.databases) }
    ensures matched { OnOk result (AllByRecursion (HasNoFault old_site.now.catalog.now new_site.now.catalog.now) (database_oids old_site.now.catalog.now.databases)) }
    ensures fault { IfErr result (λ error. error ≢ OutOfMemory → IsFirstFaultOf (fault_at old_site.now.catalog.now new_site.now.catalog.now) (database_oids old_site.now.catalog.now.databases) error) }
{
    let old = old_site.catalog;
    let new = new_site.catalog;
    // It says that the catalog is valid.
    let _ = old.bootstrap();
    let count = old.database_count();
    for i in 0..count {
        match old.database_at(i) {
            None => return Err(MapError::OutOfMemory),
            Some(database) => {
                let oid = database.oid;
                let like = new.database(oid);
                match add_database(
                    alloc,
                    old_site,
                    new_site,
                    oid,
                    Some(database),
                    like,
                    entries,
                ) {
                    Ok(()) => {}
                    Err(error) => return Err(error),
                }
            }
        }
    }
    Ok(())
}

// Looks for relations in a database of the new cluster, unless the old one has it too.
fn pass_new_database(
    alloc: Global,
    old: &Catalog,
    new: &Catalog,
    database: u32,
) -> Result<(), MapError>
    ensures matched { OnOk result (find (database_has database) old.now.databases ≡ None → HasNoFault old.now new.now database) }
    ensures alone { IfErr result (λ error. error ≢ OutOfMemory → find (database_has database) old.now.databases ≡ None) }
    ensures fault { IfErr result (λ error. error ≢ OutOfMemory → IsLeastFault (fault_at old.now new.now database) error) }
{
    if old.database(database).is_some() {
        return Ok(());
    }
    let none = relations_if(alloc, None)?;
    let relations = relations_if(alloc, new.database(database))?;
    match first_fault(database, &none, &relations) {
        None => Ok(()),
        Some(fault) => Err(fault),
    }
}

// Looks for relations in the databases that the new cluster alone has.
fn pass_new_databases(alloc: Global, old: &Catalog, new: &Catalog) -> Result<(), MapError>
    ensures matched { OnOk result (AllByRecursion (HasNoFault old.now new.now) (new_alone old.now new.now.databases)) }
    ensures fault { IfErr result (λ error. error ≢ OutOfMemory → IsFirstFaultOf (fault_at old.now new.now) (new_alone old.now new.now.databases) error) }
{
    let count = new.database_count();
    for i in 0..count {
        match new.database_at(i) {
            None => return Err(MapError::OutOfMemory),
            Some(database) => match pass_new_database(alloc, old, new, database.oid) {
                Ok(()) => {}
                Err(error) => return Err(error),
            },
        }
    }
    Ok(())
}

/// Pairs the relations of two catalogs by their OIDs, database by database in the order of the old catalog. Databases that
/// the new catalog alone has come last. (`gen_db_file_maps` of `src/bin/pg_upgrade/info.c`.)
pub fn build(alloc: Global, old: &Catalog, new: &Catalog, job: &Job) -> Result<FileMap, MapError>
    ensures map { IfOk result (λ map. map ≡ entries_of job.now old.now new.now) }
    ensures matched { OnOk result (AreMatched old.now new.now) }
    ensures fault { IfErr result (λ error. error ≢ OutOfMemory → IsFirstFault old.now new.now error) }
    ensures equal { old.now ≡ new.now → IfErr result (λ error. error ≡ OutOfMemory) }
{
    let old_site = ClusterSite {
        root: &job.old,
        release: Release::V15,
        catalog: old,
    };
    let new_site = ClusterSite {
        root: &job.new,
        release: Release::V16,
        catalog: new,
    };
    let mut entries = Vec::new(alloc);
    if let Err(error) = add_databases(alloc, &old_site, &new_site, &mut entries) {
        return Err(error);
    }
    match pass_new_databases(alloc, old, new) {
        Ok(()) => Ok(FileMap::new(entries)),
        Err(error) => Err(error),
    }
}

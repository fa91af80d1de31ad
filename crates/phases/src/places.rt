// Where an upgrade ends.
ghost use Rattle.std.specs.Prelude.{◌≡◌, ◌++◌, ◌∷◌, [], map, IfOk, IfErr, OnOk};
ghost use Rattle.fs_model.specs.declared.error.FsError.TheVariants.{OutOfMemory};
ghost use Rattle.fs_model.specs.Names.{parent};
ghost use Rattle.control_file.specs.declared.releases.Release.TheVariants.{V16};
ghost use Rattle.control_file.specs.Version.{dir_name_of};
ghost use Rattle.crash_safety.specs.Places.{tops_at};
ghost use Rattle.phase_facts.specs.Places.{mark_at, locations_of};

use catalog::{Catalog, Tablespace};
use control_file::Release;
use fs_model::{FsError, Path};
use last_sync::Places;
use std::alloc::Global;

/// The tablespace that stands in the cluster's own directory, `DEFAULTTABLESPACE_OID`.
const DEFAULT_TABLESPACE: u32 = 1663;

// Adds the release's directory at a tablespace's location, and the location.
fn add_location(
    tops: &mut Vec<Path>,
    holders: &mut Vec<Path>,
    tablespace: &Tablespace,
) -> Result<(), FsError>
    ensures tops { OnOk result (tops.new.items ≡ tops.old.items ++ (tablespace.now.location ++ dir_name_of V16 ∷ []) ∷ []) }
    ensures holders { OnOk result (holders.new.items ≡ holders.old.items ++ tablespace.now.location ∷ []) }
    ensures lack { IfErr result (λ error. error ≡ OutOfMemory) }
{
    match (
        tablespace.location.join(&[Release::V16.dir_name()]),
        tablespace.location.copy(),
    ) {
        (Ok(top), Ok(holder)) => {
            tops.push(top)?;
            holders.push(holder)?;
            Ok(())
        }
        _ => Err(FsError::OutOfMemory),
    }
}

// The same, unless it is the default tablespace, which stands in the cluster's own directory.
fn add_tablespace(
    tops: &mut Vec<Path>,
    holders: &mut Vec<Path>,
    tablespace: &Tablespace,
) -> Result<(), FsError>
    ensures tops { OnOk result (tops.new.items ≡ tops.old.items ++ map (λ location. location ++ dir_name_of V16 ∷ []) (locations_of (tablespace.now ∷ []))) }
    ensures holders { OnOk result (holders.new.items ≡ holders.old.items ++ locations_of (tablespace.now ∷ [])) }
    ensures lack { IfErr result (λ error. error ≡ OutOfMemory) }
{
    if tablespace.oid == DEFAULT_TABLESPACE {
        return Ok(());
    }
    add_location(tops, holders, tablespace)
}

// Adds those of all tablespaces.
fn add_locations(
    tops: &mut Vec<Path>,
    holders: &mut Vec<Path>,
    catalog: &Catalog,
) -> Result<(), FsError>
    ensures tops { OnOk result (tops.new.items ≡ tops.old.items ++ map (λ location. location ++ dir_name_of V16 ∷ []) (locations_of catalog.now.tablespaces)) }
    ensures holders { OnOk result (holders.new.items ≡ holders.old.items ++ locations_of catalog.now.tablespaces) }
    ensures lack { IfErr result (λ error. error ≡ OutOfMemory) }
{
    let count = catalog.tablespace_count();
    for i in 0..count {
        match catalog.tablespace_at(i) {
            None => return Ok(()),
            Some(tablespace) => add_tablespace(tops, holders, tablespace)?,
        }
    }
    Ok(())
}

// The mark of a cluster, and its directory.
fn mark_of(root: &Path) -> Result<(Path, Path), FsError>
    ensures mark { IfOk result (λ both. both.0 ≡ mark_at root.now) }
    ensures dir { IfOk result (λ both. both.1 ≡ parent both.0) }
    ensures lack { IfErr result (λ error. error ≡ OutOfMemory) }
{
    let Ok(mark) = root.join(&["pg_profile", "done"]) else {
        return Err(FsError::OutOfMemory);
    };
    let dir = mark.parent()?;
    Ok((mark, dir))
}

/// Where the upgrade into the cluster at this root ends, which has the catalog.
pub(crate) fn places_of(alloc: Global, root: &Path, catalog: &Catalog) -> Result<Places, FsError>
    ensures tops { IfOk result (λ places. places.tops.items ≡ tops_at (locations_of catalog.now.tablespaces) (dir_name_of V16) root.now) }
    ensures holders { IfOk result (λ places. places.holders.items ≡ locations_of catalog.now.tablespaces) }
    ensures mark { IfOk result (λ places. places.mark ≡ mark_at root.now) }
    ensures lack { IfErr result (λ error. error ≡ OutOfMemory) }
{
    let (mark, mark_dir) = mark_of(root)?;
    let Ok(top) = root.copy() else {
        return Err(FsError::OutOfMemory);
    };
    let mut tops = Vec::new(alloc);
    tops.push(top)?;
    let mut holders = Vec::new(alloc);
    add_locations(&mut tops, &mut holders, catalog)?;
    Ok(Places {
        tops,
        holders,
        mark,
        mark_dir,
    })
}

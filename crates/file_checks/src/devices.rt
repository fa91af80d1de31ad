// The devices of the directories that have relations' files.
ghost use Rattle.std.specs.Prelude.{◌≡◌, ℕ, true, IfOk, IfErr, Some, None};
ghost use Rattle.std.specs.FinMap.{get};
ghost use Rattle.fs_model.specs.declared.error.FsError.TheVariants.{OutOfMemory};
ghost use Rattle.fs_model.specs.Names.{Path};
ghost use Rattle.fs_model.specs.Calls.{device_of};
ghost use Rattle.fs_model.specs.Trail.{error_of, unless_lack};
ghost use Rattle.fs_model.specs.WellFormed.{WellFormed};
ghost use Rattle.fs_model.specs.Observed.{OnlyReads};
ghost use Rattle.relation_files.specs.Relations.{relations_of};
ghost use Rattle.relation_files.specs.Sites.{site_at};
ghost use Rattle.tree_checks.specs.Findings.{IsFirstAmong};
ghost use Rattle.tree_checks.specs.Looks.{IsNoRefusal};
ghost use Rattle.file_checks.specs.Devices.{device_in, device_at, IsNearestDevice, IsDifferingDir, IsOtherDevice, ArePassed, IsDeviceDiffers};

use crate::places::relations_of;
use catalog::Catalog;
use control_file::Release;
use fs_maps::InodeMap;
use fs_model::{Fs, FsError, Kind, Path, Stat};
use relation_files::{ClusterSite, Relation, relation_dir};
use std::alloc::Global;
use tree_checks::stat_at;

// The device of a directory; what is none has none here.
fn device_in(stat: Option<Stat>) -> Option<u64>
    ensures { result ≡ device_in stat }
{
    match stat {
        Some(stat) if stat.kind == Kind::Dir => Some(stat.identity.device),
        _ => None,
    }
}

// The device of the directory at a path, where one stands.
fn device_at<F: Fs>(fs: &mut F, at: &Path) -> Result<Option<u64>, FsError>
    ensures reads { OnlyReads (record { told = F.told fs.old; firm = F.firm fs.old; depth = F.depth fs.old; trail = F.trail fs.old; counts = F.counts fs.old })
        (record { told = F.told fs.new; firm = F.firm fs.new; depth = F.depth fs.new; trail = F.trail fs.new; counts = F.counts fs.new }) (unless_lack (error_of result)) }
    ensures never_refused { IsNoRefusal result }
    ensures shows { F.told fs.old ≡ true → WellFormed (F.trail fs.old).present → IfOk result (λ device. device ≡ device_at (F.trail fs.old).present at.now) }
{
    match stat_at(fs, at) {
        Ok(stat) => Ok(device_in(stat)),
        Err(error) => Err(error),
    }
}

// The device of the nearest directory that stands on the way to a path, the path itself included.
fn nearest_device<F: Fs>(fs: &mut F, path: &Path) -> Result<Option<u64>, FsError>
    ensures reads { OnlyReads (record { told = F.told fs.old; firm = F.firm fs.old; depth = F.depth fs.old; trail = F.trail fs.old; counts = F.counts fs.old })
        (record { told = F.told fs.new; firm = F.firm fs.new; depth = F.depth fs.new; trail = F.trail fs.new; counts = F.counts fs.new }) (unless_lack (error_of result)) }
    ensures never_refused { IsNoRefusal result }
    ensures shows { F.told fs.old ≡ true → WellFormed (F.trail fs.old).present → IfOk result (IsNearestDevice (F.trail fs.old).present path.now) }
{
    let Ok(mut at) = path.copy() else {
        return Err(FsError::OutOfMemory);
    };
    let count = path.names().len();
    for passed in 0..count {
        match device_at(fs, &at) {
            Ok(None) => {}
            Ok(Some(device)) => return Ok(Some(device)),
            Err(error) => return Err(error),
        }
        match at.parent() {
            Ok(above) => at = above,
            Err(_) => return Err(FsError::OutOfMemory),
        }
    }
    device_at(fs, &at)
}

// The old directory, where its device isn't the one that the new directory has or will have.
fn differing_dir<F: Fs>(fs: &mut F, old: Path, new: &Path) -> Result<Option<Path>, FsError>
    ensures reads { OnlyReads (record { told = F.told fs.old; firm = F.firm fs.old; depth = F.depth fs.old; trail = F.trail fs.old; counts = F.counts fs.old })
        (record { told = F.told fs.new; firm = F.firm fs.new; depth = F.depth fs.new; trail = F.trail fs.new; counts = F.counts fs.new }) (unless_lack (error_of result)) }
    ensures never_refused { IsNoRefusal result }
    ensures finds { F.told fs.old ≡ true → WellFormed (F.trail fs.old).present → IfOk result (IsDifferingDir (F.trail fs.old).present old new.now) }
{
    let from = match device_at(fs, &old) {
        Ok(device) => device,
        Err(error) => return Err(error),
    };
    match nearest_device(fs, new) {
        Ok(to) if to == from => Ok(None),
        Ok(_) => Ok(Some(old)),
        Err(error) => Err(error),
    }
}

// The directory of a relation, where its device isn't that of the new one.
fn other_device<F: Fs>(
    alloc: Global,
    fs: &mut F,
    old: &ClusterSite,
    new: &ClusterSite,
    relation: Relation,
) -> Result<Option<Path>, FsError>
    ensures reads { OnlyReads (record { told = F.told fs.old; firm = F.firm fs.old; depth = F.depth fs.old; trail = F.trail fs.old; counts = F.counts fs.old })
        (record { told = F.told fs.new; firm = F.firm fs.new; depth = F.depth fs.new; trail = F.trail fs.new; counts = F.counts fs.new }) (unless_lack (error_of result)) }
    ensures never_refused { IsNoRefusal result }
    ensures finds { F.told fs.old ≡ true → WellFormed (F.trail fs.old).present → IfOk result (IsOtherDevice (F.trail fs.old).present (site_at old.now) (site_at new.now) relation) }
{
    let Ok(from) = relation_dir(alloc, old, relation) else {
        return Err(FsError::OutOfMemory);
    };
    let Ok(to) = relation_dir(alloc, new, relation) else {
        return Err(FsError::OutOfMemory);
    };
    differing_dir(fs, from, &to)
}

// Whether the directory of a relation was looked at.
fn is_passed(passed: &InodeMap<u32>, relation: Relation) -> bool
    ensures { result ≡ true → get passed.now relation.tablespace ≡ Some relation.database }
{
    match passed.get(relation.tablespace as u64) {
        Some(database) => *database == relation.database,
        None => false,
    }
}

// The finding of a relation, whose directory is kept as one that was looked at.
fn next_device<F: Fs>(
    alloc: Global,
    fs: &mut F,
    old: &ClusterSite,
    new: &ClusterSite,
    passed: &mut InodeMap<u32>,
    relation: Relation,
) -> Result<Option<Path>, FsError>
    ensures reads { OnlyReads (record { told = F.told fs.old; firm = F.firm fs.old; depth = F.depth fs.old; trail = F.trail fs.old; counts = F.counts fs.old })
        (record { told = F.told fs.new; firm = F.firm fs.new; depth = F.depth fs.new; trail = F.trail fs.new; counts = F.counts fs.new }) (unless_lack (error_of result)) }
    ensures never_refused { IsNoRefusal result }
    ensures finds { F.told fs.old ≡ true → WellFormed (F.trail fs.old).present → ArePassed (F.trail fs.old).present (site_at old.now) (site_at new.now) passed.old
        → IfOk result (λ found. IsOtherDevice (F.trail fs.old).present (site_at old.now) (site_at new.now) relation found × (found ≡ None → ArePassed (F.trail fs.old).present (site_at old.now) (site_at new.now) passed.new)) }
{
    if is_passed(passed, relation) {
        return Ok(None);
    }
    let Ok(()) = passed.insert(relation.tablespace as u64, relation.database) else {
        return Err(FsError::OutOfMemory);
    };
    other_device(alloc, fs, old, new, relation)
}

// The finding of the first of these relations that has one.
fn first_device<F: Fs>(
    alloc: Global,
    fs: &mut F,
    old: &ClusterSite,
    new: &ClusterSite,
    relations: &[Relation],
) -> Result<Option<Path>, FsError>
    ensures reads { OnlyReads (record { told = F.told fs.old; firm = F.firm fs.old; depth = F.depth fs.old; trail = F.trail fs.old; counts = F.counts fs.old })
        (record { told = F.told fs.new; firm = F.firm fs.new; depth = F.depth fs.new; trail = F.trail fs.new; counts = F.counts fs.new }) (unless_lack (error_of result)) }
    ensures never_refused { IsNoRefusal result }
    ensures finds { F.told fs.old ≡ true → WellFormed (F.trail fs.old).present → IfOk result (IsFirstAmong (IsOtherDevice (F.trail fs.old).present (site_at old.now) (site_at new.now)) relations.now) }
{
    let mut passed = InodeMap::new(alloc);
    for relation in relations {
        match next_device(alloc, fs, old, new, &mut passed, *relation) {
            Ok(None) => {}
            Ok(Some(path)) => return Ok(Some(path)),
            Err(error) => return Err(error),
        }
    }
    Ok(None)
}

/// The first directory of the old cluster's relations, in the order of the catalog, whose device isn't that of the new
/// directory; where that one doesn't stand yet, its nearest ancestor that does counts. Files can't be linked from one device
/// to another (link(2)). Each directory is looked at once. No state is changed, and no refusal is answered.
pub fn device_differs<F: Fs>(
    alloc: Global,
    fs: &mut F,
    old: &Path,
    new: &Path,
    catalog: &Catalog,
) -> Result<Option<Path>, FsError>
    ensures reads { OnlyReads (record { told = F.told fs.old; firm = F.firm fs.old; depth = F.depth fs.old; trail = F.trail fs.old; counts = F.counts fs.old })
        (record { told = F.told fs.new; firm = F.firm fs.new; depth = F.depth fs.new; trail = F.trail fs.new; counts = F.counts fs.new }) (unless_lack (error_of result)) }
    ensures never_refused { IsNoRefusal result }
    ensures finds { F.told fs.old ≡ true → IfOk result (IsDeviceDiffers (F.trail fs.old).present old.now new.now catalog.now) }
{
    let _ = fs.moment();
    let Ok(relations) = relations_of(alloc, catalog) else {
        return Err(FsError::OutOfMemory);
    };
    let old = ClusterSite {
        root: old,
        release: Release::V15,
        catalog,
    };
    let new = ClusterSite {
        root: new,
        release: Release::V16,
        catalog,
    };
    first_device(alloc, fs, &old, &new, &relations)
}

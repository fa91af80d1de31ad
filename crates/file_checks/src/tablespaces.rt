// The directories of an old cluster's tablespaces.
ghost use Rattle.std.specs.Prelude.{◌≡◌, ◌++◌, ◌∷◌, [], ℕ, List, true, Some, is_some, IfOk, IfErr, OnOk};
ghost use Rattle.catalog.specs.declared.owners.Tablespace.{Tablespace};
ghost use Rattle.std.specs.List.{find, list_any};
ghost use Rattle.std.specs.Option.{option_map};
ghost use Rattle.std.specs.FinMap.{get};
ghost use Rattle.control_file.specs.Version.{dir_name_of};
ghost use Rattle.crash_safety.specs.Places.{links_at};
ghost use Rattle.fs_model.specs.declared.error.FsError.TheVariants.{OutOfMemory};
ghost use Rattle.fs_model.specs.Trail.{error_of, unless_lack};
ghost use Rattle.fs_model.specs.WellFormed.{WellFormed};
ghost use Rattle.fs_model.specs.Observed.{OnlyReads};
ghost use Rattle.fs_tools.specs.Children.{child_of};
ghost use Rattle.tree_checks.specs.Findings.{IsFirstAmong};
ghost use Rattle.tree_checks.specs.Looks.{IsNoRefusal};
ghost use Rattle.tree_checks.specs.MissingDirs.{IsNoDir};
ghost use Rattle.file_checks.specs.Tablespaces.{placed, is_placed, link_of, is_target, overlaps, overlaps_other, is_overlapped, IsBadLink, IsTaken, IsBadReleases, IsBadPlace, IsBadLocation, IsBadTablespace, is_no_link, IsStrayLink, IsTablespaceDir};
ghost use Rattle.file_checks.specs.Kept.{AreLinks};

use catalog::{Catalog, Tablespace};
use control_file::Release;
use fs_maps::PathMap;
use fs_model::{Fs, FsError, Name, Path};
use std::alloc::{AllocError, Global};
use tree_checks::{is_dir, kind_at, names_at, target_at};

const DEFAULT_TABLESPACE: u32 = 1663;

// Whether a tablespace stands at a location of its own.
fn is_placed(tablespace: &Tablespace) -> bool
    ensures { result ≡ is_placed tablespace.now }
{
    tablespace.oid != DEFAULT_TABLESPACE
}

fn copy_of(path: &Path) -> Result<Option<Path>, FsError>
    ensures same { IfOk result (λ copy. copy ≡ Some path.now) }
    ensures lack { IfErr result (λ error. error ≡ OutOfMemory) }
{
    match path.copy() {
        Ok(copy) => Ok(Some(copy)),
        Err(_) => Err(FsError::OutOfMemory),
    }
}

// Whether one directory is the other, or is below it.
fn overlaps(a: &Path, b: &Path) -> bool
    ensures { result ≡ overlaps a.now b.now }
{
    let below = b.is_under(a);
    let above = a.is_under(b);
    below || above
}

fn overlaps_other(tablespace: &Tablespace, other: &Tablespace) -> bool
    ensures { result ≡ overlaps_other tablespace.now other.now }
{
    let another = other.oid != tablespace.oid;
    let over = overlaps(&tablespace.location, &other.location);
    another && over
}

// Whether a tablespace's location overlaps that of this one, `pg_default` left out.
fn overlaps_placed(tablespace: &Tablespace, other: &Tablespace) -> bool
    ensures { result ≡ list_any (overlaps_other tablespace.now) (placed (other.now ∷ [])) }
{
    let placed = is_placed(other);
    let over = overlaps_other(tablespace, other);
    placed && over
}

// Whether a tablespace's location overlaps that of another.
fn overlaps_any(catalog: &Catalog, tablespace: &Tablespace) -> bool
    ensures { result ≡ list_any (overlaps_other tablespace.now) (placed catalog.now.tablespaces) }
{
    let count = catalog.tablespace_count();
    for i in 0..count {
        let Some(other) = catalog.tablespace_at(i) else {
            return false;
        };
        if overlaps_placed(tablespace, other) {
            return true;
        }
    }
    false
}

// Whether a tablespace's location overlaps the directory of a cluster or the location of another tablespace.
fn is_overlapped(old: &Path, new: &Path, catalog: &Catalog, tablespace: &Tablespace) -> bool
    ensures { result ≡ is_overlapped (placed catalog.now.tablespaces) old.now new.now tablespace.now }
{
    let over_old = overlaps(&tablespace.location, old);
    let over_new = overlaps(&tablespace.location, new);
    let over_other = overlaps_any(catalog, tablespace);
    over_old || (over_new || over_other)
}

// The path of a tablespace's link.
fn link_of(alloc: Global, old: &Path, tablespace: &Tablespace) -> Result<Path, FsError>
    ensures path { IfOk result (λ path. path ≡ link_of old.now tablespace.now) }
    ensures lack { IfErr result (λ error. error ≡ OutOfMemory) }
{
    let Ok(oid) = format!(in alloc; "{}", tablespace.oid) else {
        return Err(FsError::OutOfMemory);
    };
    match old.join(&["pg_tblspc", &oid]) {
        Ok(path) => Ok(path),
        Err(_) => Err(FsError::OutOfMemory),
    }
}

fn is_target(location: &Path, target: &Option<Path>) -> bool
    ensures { result ≡ is_target location.now target.now }
{
    match target {
        Some(target) => target == location,
        None => false,
    }
}

// A tablespace's link, where it is no symbolic link to the location.
fn bad_link<F: Fs>(
    alloc: Global,
    fs: &mut F,
    old: &Path,
    tablespace: &Tablespace,
) -> Result<Option<Path>, FsError>
    ensures reads { OnlyReads (record { told = F.told fs.old; firm = F.firm fs.old; depth = F.depth fs.old; trail = F.trail fs.old; counts = F.counts fs.old })
        (record { told = F.told fs.new; firm = F.firm fs.new; depth = F.depth fs.new; trail = F.trail fs.new; counts = F.counts fs.new }) (unless_lack (error_of result)) }
    ensures never_refused { IsNoRefusal result }
    ensures finds { F.told fs.old ≡ true → WellFormed (F.trail fs.old).present → IfOk result (IsBadLink (F.trail fs.old).present.names old.now tablespace.now) }
{
    let Ok(link) = link_of(alloc, old, tablespace) else {
        return Err(FsError::OutOfMemory);
    };
    match target_at(alloc, fs, &link) {
        Ok(target) if is_target(&tablespace.location, &target) => Ok(None),
        Ok(_) => Ok(Some(link)),
        Err(error) => Err(error),
    }
}

// The path, where it is that of no directory.
fn no_dir<F: Fs>(fs: &mut F, dir: &Path) -> Result<Option<Path>, FsError>
    ensures reads { OnlyReads (record { told = F.told fs.old; firm = F.firm fs.old; depth = F.depth fs.old; trail = F.trail fs.old; counts = F.counts fs.old })
        (record { told = F.told fs.new; firm = F.firm fs.new; depth = F.depth fs.new; trail = F.trail fs.new; counts = F.counts fs.new }) (unless_lack (error_of result)) }
    ensures never_refused { IsNoRefusal result }
    ensures finds { F.told fs.old ≡ true → WellFormed (F.trail fs.old).present → IfOk result (IsNoDir (F.trail fs.old).present.names dir.now) }
{
    match kind_at(fs, dir) {
        Ok(kind) if is_dir(kind) => Ok(None),
        Ok(_) => copy_of(dir),
        Err(error) => Err(error),
    }
}

// The path, where anything stands there.
fn taken<F: Fs>(fs: &mut F, at: Path) -> Result<Option<Path>, FsError>
    ensures reads { OnlyReads (record { told = F.told fs.old; firm = F.firm fs.old; depth = F.depth fs.old; trail = F.trail fs.old; counts = F.counts fs.old })
        (record { told = F.told fs.new; firm = F.firm fs.new; depth = F.depth fs.new; trail = F.trail fs.new; counts = F.counts fs.new }) (unless_lack (error_of result)) }
    ensures never_refused { IsNoRefusal result }
    ensures finds { F.told fs.old ≡ true → WellFormed (F.trail fs.old).present → IfOk result (IsTaken (F.trail fs.old).present.names at) }
{
    match kind_at(fs, &at) {
        Ok(kind) if kind.is_some() => Ok(Some(at)),
        Ok(_) => Ok(None),
        Err(error) => Err(error),
    }
}

// The directory of a release in a location.
fn release_dir(location: &Path, release: Release) -> Result<Path, FsError>
    ensures path { IfOk result (λ path. path ≡ child_of location.now (dir_name_of release)) }
    ensures lack { IfErr result (λ error. error ≡ OutOfMemory) }
{
    match location.join(&[release.dir_name()]) {
        Ok(path) => Ok(path),
        Err(_) => Err(FsError::OutOfMemory),
    }
}

// The old release's directory in a location, where it is none, or the new one's, where it stands.
fn bad_releases<F: Fs>(fs: &mut F, location: &Path) -> Result<Option<Path>, FsError>
    ensures reads { OnlyReads (record { told = F.told fs.old; firm = F.firm fs.old; depth = F.depth fs.old; trail = F.trail fs.old; counts = F.counts fs.old })
        (record { told = F.told fs.new; firm = F.firm fs.new; depth = F.depth fs.new; trail = F.trail fs.new; counts = F.counts fs.new }) (unless_lack (error_of result)) }
    ensures never_refused { IsNoRefusal result }
    ensures finds { F.told fs.old ≡ true → WellFormed (F.trail fs.old).present → IfOk result (IsBadReleases (F.trail fs.old).present.names location.now) }
{
    let Ok(from) = release_dir(location, Release::V15) else {
        return Err(FsError::OutOfMemory);
    };
    let Ok(to) = release_dir(location, Release::V16) else {
        return Err(FsError::OutOfMemory);
    };
    match no_dir(fs, &from) {
        Ok(None) => taken(fs, to),
        Ok(Some(path)) => Ok(Some(path)),
        Err(error) => Err(error),
    }
}

// What is wrong with a location that is a directory.
fn bad_place<F: Fs>(
    fs: &mut F,
    old: &Path,
    new: &Path,
    catalog: &Catalog,
    tablespace: &Tablespace,
) -> Result<Option<Path>, FsError>
    ensures reads { OnlyReads (record { told = F.told fs.old; firm = F.firm fs.old; depth = F.depth fs.old; trail = F.trail fs.old; counts = F.counts fs.old })
        (record { told = F.told fs.new; firm = F.firm fs.new; depth = F.depth fs.new; trail = F.trail fs.new; counts = F.counts fs.new }) (unless_lack (error_of result)) }
    ensures never_refused { IsNoRefusal result }
    ensures finds { F.told fs.old ≡ true → WellFormed (F.trail fs.old).present → IfOk result (IsBadPlace (F.trail fs.old).present.names old.now new.now (placed catalog.now.tablespaces) tablespace.now) }
{
    if is_overlapped(old, new, catalog, tablespace) {
        return copy_of(&tablespace.location);
    }
    bad_releases(fs, &tablespace.location)
}

// What is wrong with a location.
fn bad_location<F: Fs>(
    fs: &mut F,
    old: &Path,
    new: &Path,
    catalog: &Catalog,
    tablespace: &Tablespace,
) -> Result<Option<Path>, FsError>
    ensures reads { OnlyReads (record { told = F.told fs.old; firm = F.firm fs.old; depth = F.depth fs.old; trail = F.trail fs.old; counts = F.counts fs.old })
        (record { told = F.told fs.new; firm = F.firm fs.new; depth = F.depth fs.new; trail = F.trail fs.new; counts = F.counts fs.new }) (unless_lack (error_of result)) }
    ensures never_refused { IsNoRefusal result }
    ensures finds { F.told fs.old ≡ true → WellFormed (F.trail fs.old).present → IfOk result (IsBadLocation (F.trail fs.old).present.names old.now new.now (placed catalog.now.tablespaces) tablespace.now) }
{
    match no_dir(fs, &tablespace.location) {
        Ok(None) => bad_place(fs, old, new, catalog, tablespace),
        Ok(Some(path)) => Ok(Some(path)),
        Err(error) => Err(error),
    }
}

// What is wrong with a tablespace.
fn bad_tablespace<F: Fs>(
    alloc: Global,
    fs: &mut F,
    old: &Path,
    new: &Path,
    catalog: &Catalog,
    tablespace: &Tablespace,
) -> Result<Option<Path>, FsError>
    ensures reads { OnlyReads (record { told = F.told fs.old; firm = F.firm fs.old; depth = F.depth fs.old; trail = F.trail fs.old; counts = F.counts fs.old })
        (record { told = F.told fs.new; firm = F.firm fs.new; depth = F.depth fs.new; trail = F.trail fs.new; counts = F.counts fs.new }) (unless_lack (error_of result)) }
    ensures never_refused { IsNoRefusal result }
    ensures finds { F.told fs.old ≡ true → WellFormed (F.trail fs.old).present → IfOk result (IsBadTablespace (F.trail fs.old).present.names old.now new.now (placed catalog.now.tablespaces) tablespace.now) }
{
    match bad_link(alloc, fs, old, tablespace) {
        Ok(None) => bad_location(fs, old, new, catalog, tablespace),
        Ok(Some(path)) => Ok(Some(path)),
        Err(error) => Err(error),
    }
}

// What is wrong with a tablespace, `pg_default` left out.
fn bad_if_placed<F: Fs>(
    alloc: Global,
    fs: &mut F,
    old: &Path,
    new: &Path,
    catalog: &Catalog,
    tablespace: &Tablespace,
) -> Result<Option<Path>, FsError>
    ensures reads { OnlyReads (record { told = F.told fs.old; firm = F.firm fs.old; depth = F.depth fs.old; trail = F.trail fs.old; counts = F.counts fs.old })
        (record { told = F.told fs.new; firm = F.firm fs.new; depth = F.depth fs.new; trail = F.trail fs.new; counts = F.counts fs.new }) (unless_lack (error_of result)) }
    ensures never_refused { IsNoRefusal result }
    ensures finds { F.told fs.old ≡ true → WellFormed (F.trail fs.old).present → IfOk result (IsFirstAmong (IsBadTablespace (F.trail fs.old).present.names old.now new.now (placed catalog.now.tablespaces)) (placed (tablespace.now ∷ []))) }
{
    if !is_placed(tablespace) {
        return Ok(None);
    }
    bad_tablespace(alloc, fs, old, new, catalog, tablespace)
}

// The finding of the first tablespace of which a path is wrong.
fn first_bad<F: Fs>(
    alloc: Global,
    fs: &mut F,
    old: &Path,
    new: &Path,
    catalog: &Catalog,
) -> Result<Option<Path>, FsError>
    ensures reads { OnlyReads (record { told = F.told fs.old; firm = F.firm fs.old; depth = F.depth fs.old; trail = F.trail fs.old; counts = F.counts fs.old })
        (record { told = F.told fs.new; firm = F.firm fs.new; depth = F.depth fs.new; trail = F.trail fs.new; counts = F.counts fs.new }) (unless_lack (error_of result)) }
    ensures never_refused { IsNoRefusal result }
    ensures finds { F.told fs.old ≡ true → WellFormed (F.trail fs.old).present → IfOk result (IsFirstAmong (IsBadTablespace (F.trail fs.old).present.names old.now new.now (placed catalog.now.tablespaces)) (placed catalog.now.tablespaces)) }
{
    let count = catalog.tablespace_count();
    for i in 0..count {
        let Some(tablespace) = catalog.tablespace_at(i) else {
            return Err(FsError::OutOfMemory);
        };
        match bad_if_placed(alloc, fs, old, new, catalog, tablespace) {
            Ok(None) => {}
            Ok(Some(path)) => return Ok(Some(path)),
            Err(error) => return Err(error),
        }
    }
    Ok(None)
}

// Adds the link of a tablespace, but for `pg_default`.
fn add_link(
    alloc: Global,
    links: &mut PathMap<()>,
    old: &Path,
    tablespace: &Tablespace,
) -> Result<(), FsError>
    ensures links { OnOk result ((before : List Tablespace) → AreLinks old.now before links.old → AreLinks old.now (before ++ tablespace.now ∷ []) links.new) }
    ensures lack { IfErr result (λ error. error ≡ OutOfMemory) }
{
    if !is_placed(tablespace) {
        return Ok(());
    }
    let link = match link_of(alloc, old, tablespace) {
        Ok(link) => link,
        Err(error) => return Err(error),
    };
    match links.insert(link, ()) {
        Ok(()) => Ok(()),
        Err(_) => Err(FsError::OutOfMemory),
    }
}

// The paths of the tablespaces' links.
fn links_in(alloc: Global, old: &Path, catalog: &Catalog) -> Result<PathMap<()>, FsError>
    ensures links { IfOk result (AreLinks old.now catalog.now.tablespaces) }
    ensures lack { IfErr result (λ error. error ≡ OutOfMemory) }
{
    let mut links = PathMap::new(alloc);
    let count = catalog.tablespace_count();
    for i in 0..count {
        let Some(tablespace) = catalog.tablespace_at(i) else {
            return Err(FsError::OutOfMemory);
        };
        match add_link(alloc, &mut links, old, tablespace) {
            Ok(()) => {}
            Err(error) => return Err(error),
        }
    }
    Ok(links)
}

// The path of the first of these names that is no tablespace's link.
fn first_stray(links: &PathMap<()>, dir: &Path, names: &[Name]) -> Result<Option<Path>, FsError>
    ensures found { (old : List (List ℕ)) (tablespaces : List Tablespace) → dir.now ≡ links_at old → AreLinks old tablespaces links.now
        → IfOk result (λ found. found ≡ option_map (child_of dir.now) (find (is_no_link (placed tablespaces)) names.now)) }
    ensures lack { IfErr result (λ error. error ≡ OutOfMemory) }
{
    for name in names {
        let Ok(path) = dir.child(name) else {
            return Err(FsError::OutOfMemory);
        };
        if links.get(&path).is_none() {
            return Ok(Some(path));
        }
    }
    Ok(None)
}

// The directory of links, where it is none; else the least name in it that is no tablespace's.
fn stray_link<F: Fs>(
    alloc: Global,
    fs: &mut F,
    old: &Path,
    catalog: &Catalog,
) -> Result<Option<Path>, FsError>
    ensures reads { OnlyReads (record { told = F.told fs.old; firm = F.firm fs.old; depth = F.depth fs.old; trail = F.trail fs.old; counts = F.counts fs.old })
        (record { told = F.told fs.new; firm = F.firm fs.new; depth = F.depth fs.new; trail = F.trail fs.new; counts = F.counts fs.new }) (unless_lack (error_of result)) }
    ensures never_refused { IsNoRefusal result }
    ensures finds { F.told fs.old ≡ true → WellFormed (F.trail fs.old).present → IfOk result (IsStrayLink (F.trail fs.old).present.names old.now (placed catalog.now.tablespaces)) }
{
    let links = match links_in(alloc, old, catalog) {
        Ok(links) => links,
        Err(error) => return Err(error),
    };
    let Ok(dir) = old.join(&["pg_tblspc"]) else {
        return Err(FsError::OutOfMemory);
    };
    match names_at(alloc, fs, &dir) {
        Ok(Some(names)) => first_stray(&links, &dir, &names),
        Ok(None) => Ok(Some(dir)),
        Err(error) => Err(error),
    }
}

/// The first path of a tablespace that an upgrade can't take, of the first such tablespace in the order of the catalog: its
/// link in `pg_tblspc`, which has to lead to the location; the location, which has to be a directory apart from both clusters
/// and from the other locations; in it the old release's directory, which has to stand, and the new one's, which must not. Then
/// `pg_tblspc`, where it is no directory, or the least name in it that is no tablespace's. No state is changed, and no refusal
/// is answered.
pub fn tablespace_dir<F: Fs>(
    alloc: Global,
    fs: &mut F,
    old: &Path,
    new: &Path,
    catalog: &Catalog,
) -> Result<Option<Path>, FsError>
    ensures reads { OnlyReads (record { told = F.told fs.old; firm = F.firm fs.old; depth = F.depth fs.old; trail = F.trail fs.old; counts = F.counts fs.old })
        (record { told = F.told fs.new; firm = F.firm fs.new; depth = F.depth fs.new; trail = F.trail fs.new; counts = F.counts fs.new }) (unless_lack (error_of result)) }
    ensures never_refused { IsNoRefusal result }
    ensures finds { F.told fs.old ≡ true → IfOk result (IsTablespaceDir (F.trail fs.old).present old.now new.now catalog.now) }
{
    let _ = fs.moment();
    match first_bad(alloc, fs, old, new, catalog) {
        Ok(None) => stray_link(alloc, fs, old, catalog),
        Ok(Some(path)) => Ok(Some(path)),
        Err(error) => Err(error),
    }
}

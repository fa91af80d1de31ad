// The files of an old cluster's relations.
ghost use Rattle.std.specs.Prelude.{◌≡◌, ◌<◌, ◌++◌, ◌∷◌, [], ℕ, List, true, Some, None, is_some, string_bytes, if◌then◌else◌, drop, length, ◌≤◌, IfOk, IfErr, OnOk};
ghost use Rattle.std.specs.List.{list_all};
ghost use Rattle.std.specs.FinMap.{FinMap, get};
ghost use Rattle.fs_model.specs.declared.error.FsError.TheVariants.{OutOfMemory};
ghost use Rattle.fs_model.specs.Names.{Path};
ghost use Rattle.fs_model.specs.Trail.{error_of, unless_lack};
ghost use Rattle.fs_model.specs.WellFormed.{WellFormed};
ghost use Rattle.fs_model.specs.Observed.{OnlyReads};
ghost use Rattle.fs_tools.specs.Children.{child_of};
ghost use Rattle.relation_files.specs.Places.{relation_dir, segment_path};
ghost use Rattle.relation_files.specs.declared.relation.Fork.TheVariants.{Main};
ghost use Rattle.relation_files.specs.Sites.{site_at};
ghost use Rattle.tree_checks.specs.Findings.{IsFirstAmong};
ghost use Rattle.tree_checks.specs.Looks.{IsNoRefusal};
ghost use Rattle.tree_checks.specs.NewDirs.{is_digit};
ghost use Rattle.file_checks.specs.RelationFiles.{is_segment_number, is_segment_suffix, behind_fork, is_other_suffix, IsNoFile, IsBadRelation, IsMissingFile};
ghost use Rattle.file_checks.specs.Kept.{IsLeadingNumber, AreFirstBad, AreBadFiles, AreListings, kept_at, is_listed, listed_bad};

use crate::places::relations_of;
use catalog::Catalog;
use control_file::Release;
use fs_maps::{InodeMap, PathMap};
use fs_model::{Fs, FsError, Name, Path};
use relation_files::{ClusterSite, Fork, Relation, relation_dir, segment_path};
use std::alloc::{AllocError, Global};
use tree_checks::{is_file, kind_at, names_at};

/// What was found in a database's directory in a tablespace.
#[derive(Drop)]
pub(crate) struct Listing {
    /// The database's OID.
    pub(crate) database: u32,
    /// By the paths of the relations' first files, the least of each relation's other names where no file stands.
    pub(crate) bad: PathMap<Path>,
}

fn is_digit(byte: u8) -> bool
    ensures { result ≡ is_digit byte }
{
    byte >= b'0' && byte <= b'9'
}

fn are_digits(bytes: &[u8]) -> bool
    ensures { result ≡ list_all is_digit bytes.now }
{
    bytes.iter().all(|byte| is_digit(*byte))
}

// Whether these are digits without a leading zero.
fn is_segment_number(bytes: &[u8]) -> bool
    ensures { result ≡ is_segment_number bytes.now }
{
    match bytes {
        [] => false,
        [digit, digits @ ..] => *digit != b'0' && (is_digit(*digit) && are_digits(digits)),
    }
}

// Whether this can stand behind the name of a fork in that of a segment.
fn is_segment_suffix(bytes: &[u8]) -> bool
    ensures { result ≡ is_segment_suffix bytes.now }
{
    match bytes {
        [] => true,
        [point, number @ ..] => *point == b'.' && is_segment_number(number),
    }
}

// What is left behind the suffix of a fork.
fn behind_fork(suffix: &[u8]) -> &[u8]
    ensures { result.now ≡ behind_fork suffix.now }
{
    if suffix.starts_with(b"_fsm") {
        &suffix[4..]
    } else if suffix.starts_with(b"_vm") {
        &suffix[3..]
    } else {
        suffix
    }
}

// Whether this stands behind the file number in the name of a relation's file, the first segment of the main fork left out.
fn is_other_suffix(suffix: &[u8]) -> bool
    ensures { result ≡ is_other_suffix suffix.now }
{
    !suffix.is_empty() && is_segment_suffix(behind_fork(suffix))
}

// Whether a name that begins with this file number is that of another file of its relation.
fn is_other_name(number: &str, name: &[u8]) -> bool
    requires { length number.now ≤ length name.now }
    ensures { result ≡ is_other_suffix (drop (length number.now) name.now) }
{
    is_other_suffix(&name[number.len()..])
}

// The digits that a name begins with.
fn leading_number(alloc: Global, name: &[u8]) -> Result<String, AllocError>
    ensures { IfOk result (λ number. IsLeadingNumber (string_bytes number) name.now) }
{
    let mut number = String::new(alloc);
    for byte in name {
        if !is_digit(*byte) {
            return Ok(number);
        }
        number.push(*byte as char)?;
    }
    Ok(number)
}

// The path of a name in a directory, where something else than a file stands.
fn no_file<F: Fs>(fs: &mut F, at: Path) -> Result<Option<Path>, FsError>
    ensures reads { OnlyReads (record { told = F.told fs.old; firm = F.firm fs.old; depth = F.depth fs.old; trail = F.trail fs.old; counts = F.counts fs.old })
        (record { told = F.told fs.new; firm = F.firm fs.new; depth = F.depth fs.new; trail = F.trail fs.new; counts = F.counts fs.new }) (unless_lack (error_of result)) }
    ensures never_refused { IsNoRefusal result }
    ensures finds { F.told fs.old ≡ true → WellFormed (F.trail fs.old).present → IfOk result (IsNoFile (F.trail fs.old).present.names at) }
{
    match kind_at(fs, &at) {
        Ok(kind) if is_file(kind) => Ok(None),
        Ok(_) => Ok(Some(at)),
        Err(error) => Err(error),
    }
}

// Keeps a path for a file number that has none yet.
fn keep_first(bad: &mut PathMap<Path>, dir: &Path, number: &str, path: Path) -> Result<(), FsError>
    ensures same { OnOk result ((at : Path) → get bad.new at ≡ kept_at (child_of dir.now number.now) path bad.old at) }
    ensures lack { IfErr result (λ error. error ≡ OutOfMemory) }
{
    let Ok(at) = dir.join(&[number]) else {
        return Err(FsError::OutOfMemory);
    };
    if bad.get(&at).is_some() {
        return Ok(());
    }
    match bad.insert(at, path) {
        Ok(()) => Ok(()),
        Err(_) => Err(FsError::OutOfMemory),
    }
}

// Looks at a name in a directory, if it can be one of a relation's other files.
fn add_name<F: Fs>(
    alloc: Global,
    fs: &mut F,
    dir: &Path,
    bad: &mut PathMap<Path>,
    name: &Name,
) -> Result<(), FsError>
    ensures reads { OnlyReads (record { told = F.told fs.old; firm = F.firm fs.old; depth = F.depth fs.old; trail = F.trail fs.old; counts = F.counts fs.old })
        (record { told = F.told fs.new; firm = F.firm fs.new; depth = F.depth fs.new; trail = F.trail fs.new; counts = F.counts fs.new }) (unless_lack (error_of result)) }
    ensures never_refused { IsNoRefusal result }
    ensures found { F.told fs.old ≡ true → WellFormed (F.trail fs.old).present → (items : List (List ℕ)) → AreFirstBad (F.trail fs.old).present.names dir.now items bad.old → OnOk result (AreFirstBad (F.trail fs.old).present.names dir.now (items ++ name.now ∷ []) bad.new) }
{
    let text = name.text().as_bytes();
    let Ok(number) = leading_number(alloc, text) else {
        return Err(FsError::OutOfMemory);
    };
    if !is_other_name(&number, text) {
        return Ok(());
    }
    let Ok(at) = dir.child(name) else {
        return Err(FsError::OutOfMemory);
    };
    match no_file(fs, at) {
        Ok(None) => Ok(()),
        Ok(Some(path)) => keep_first(bad, dir, &number, path),
        Err(error) => Err(error),
    }
}

// The least bad paths among these names of a directory.
fn bad_names<F: Fs>(
    alloc: Global,
    fs: &mut F,
    dir: &Path,
    names: &[Name],
) -> Result<PathMap<Path>, FsError>
    ensures reads { OnlyReads (record { told = F.told fs.old; firm = F.firm fs.old; depth = F.depth fs.old; trail = F.trail fs.old; counts = F.counts fs.old })
        (record { told = F.told fs.new; firm = F.firm fs.new; depth = F.depth fs.new; trail = F.trail fs.new; counts = F.counts fs.new }) (unless_lack (error_of result)) }
    ensures never_refused { IsNoRefusal result }
    ensures found { F.told fs.old ≡ true → WellFormed (F.trail fs.old).present → IfOk result (AreFirstBad (F.trail fs.old).present.names dir.now names.now) }
{
    let mut bad = PathMap::new(alloc);
    for name in names {
        match add_name(alloc, fs, dir, &mut bad, name) {
            Ok(()) => {}
            Err(error) => return Err(error),
        }
    }
    Ok(bad)
}

// The least bad paths of a directory, by file numbers.
fn bad_files<F: Fs>(alloc: Global, fs: &mut F, dir: &Path) -> Result<PathMap<Path>, FsError>
    ensures reads { OnlyReads (record { told = F.told fs.old; firm = F.firm fs.old; depth = F.depth fs.old; trail = F.trail fs.old; counts = F.counts fs.old })
        (record { told = F.told fs.new; firm = F.firm fs.new; depth = F.depth fs.new; trail = F.trail fs.new; counts = F.counts fs.new }) (unless_lack (error_of result)) }
    ensures never_refused { IsNoRefusal result }
    ensures found { F.told fs.old ≡ true → WellFormed (F.trail fs.old).present → IfOk result (AreBadFiles (F.trail fs.old).present.names dir.now) }
{
    match names_at(alloc, fs, dir) {
        Ok(Some(names)) => bad_names(alloc, fs, dir, &names),
        Ok(None) => Ok(PathMap::new(alloc)),
        Err(error) => Err(error),
    }
}

// Whether the directory of a relation was listed.
fn is_listed(listings: &InodeMap<Listing>, relation: Relation) -> bool
    ensures { result ≡ is_listed listings.now relation }
{
    match listings.get(relation.tablespace as u64) {
        Some(listing) => listing.database == relation.database,
        None => false,
    }
}

// Lists the directory of a relation, unless it was listed.
fn list_once<F: Fs>(
    alloc: Global,
    fs: &mut F,
    site: &ClusterSite,
    listings: &mut InodeMap<Listing>,
    relation: Relation,
) -> Result<(), FsError>
    ensures reads { OnlyReads (record { told = F.told fs.old; firm = F.firm fs.old; depth = F.depth fs.old; trail = F.trail fs.old; counts = F.counts fs.old })
        (record { told = F.told fs.new; firm = F.firm fs.new; depth = F.depth fs.new; trail = F.trail fs.new; counts = F.counts fs.new }) (unless_lack (error_of result)) }
    ensures never_refused { IsNoRefusal result }
    ensures kept { F.told fs.old ≡ true → WellFormed (F.trail fs.old).present → AreListings (F.trail fs.old).present.names (site_at site.now) listings.old → OnOk result (AreListings (F.trail fs.old).present.names (site_at site.now) listings.new) }
    ensures listed { OnOk result (is_listed listings.new relation ≡ true) }
{
    if is_listed(listings, relation) {
        return Ok(());
    }
    let Ok(dir) = relation_dir(alloc, site, relation) else {
        return Err(FsError::OutOfMemory);
    };
    let bad = match bad_files(alloc, fs, &dir) {
        Ok(bad) => bad,
        Err(error) => return Err(error),
    };
    let database = relation.database;
    match listings.insert(relation.tablespace as u64, Listing { database, bad }) {
        Ok(()) => Ok(()),
        Err(_) => Err(FsError::OutOfMemory),
    }
}

// What the listing of a relation's directory has for the path of its first file.
fn listed_bad(
    listings: &InodeMap<Listing>,
    tablespace: u32,
    first: &Path,
) -> Result<Option<Path>, FsError>
    ensures found { IfOk result (λ found. found ≡ listed_bad (get listings.now tablespace) first.now) }
    ensures lack { IfErr result (λ error. error ≡ OutOfMemory) }
{
    let Some(listing) = listings.get(tablespace as u64) else {
        return Ok(None);
    };
    let Some(path) = listing.bad.get(first) else {
        return Ok(None);
    };
    match path.copy() {
        Ok(copy) => Ok(Some(copy)),
        Err(_) => Err(FsError::OutOfMemory),
    }
}

// The finding of a relation whose directory was listed.
fn bad_relation<F: Fs>(
    alloc: Global,
    fs: &mut F,
    site: &ClusterSite,
    listings: &InodeMap<Listing>,
    relation: Relation,
) -> Result<Option<Path>, FsError>
    ensures reads { OnlyReads (record { told = F.told fs.old; firm = F.firm fs.old; depth = F.depth fs.old; trail = F.trail fs.old; counts = F.counts fs.old })
        (record { told = F.told fs.new; firm = F.firm fs.new; depth = F.depth fs.new; trail = F.trail fs.new; counts = F.counts fs.new }) (unless_lack (error_of result)) }
    ensures never_refused { IsNoRefusal result }
    ensures finds { F.told fs.old ≡ true → WellFormed (F.trail fs.old).present → AreListings (F.trail fs.old).present.names (site_at site.now) listings.now → is_listed listings.now relation ≡ true
        → IfOk result (IsBadRelation (F.trail fs.old).present.names (site_at site.now) relation) }
{
    let Ok(first) = segment_path(alloc, site, relation, Fork::Main, 0) else {
        return Err(FsError::OutOfMemory);
    };
    match kind_at(fs, &first) {
        Ok(kind) if is_file(kind) => listed_bad(listings, relation.tablespace, &first),
        Ok(_) => Ok(Some(first)),
        Err(error) => Err(error),
    }
}

// The finding of a relation, whose directory is listed unless it was.
fn next_relation<F: Fs>(
    alloc: Global,
    fs: &mut F,
    site: &ClusterSite,
    listings: &mut InodeMap<Listing>,
    relation: Relation,
) -> Result<Option<Path>, FsError>
    ensures reads { OnlyReads (record { told = F.told fs.old; firm = F.firm fs.old; depth = F.depth fs.old; trail = F.trail fs.old; counts = F.counts fs.old })
        (record { told = F.told fs.new; firm = F.firm fs.new; depth = F.depth fs.new; trail = F.trail fs.new; counts = F.counts fs.new }) (unless_lack (error_of result)) }
    ensures never_refused { IsNoRefusal result }
    ensures finds { F.told fs.old ≡ true → WellFormed (F.trail fs.old).present → AreListings (F.trail fs.old).present.names (site_at site.now) listings.old → IfOk result (IsBadRelation (F.trail fs.old).present.names (site_at site.now) relation) }
    ensures kept { F.told fs.old ≡ true → WellFormed (F.trail fs.old).present → AreListings (F.trail fs.old).present.names (site_at site.now) listings.old → OnOk result (AreListings (F.trail fs.old).present.names (site_at site.now) listings.new) }
{
    match list_once(alloc, fs, site, listings, relation) {
        Ok(()) => bad_relation(alloc, fs, site, listings, relation),
        Err(error) => Err(error),
    }
}

// The finding of the first of these relations that has one.
fn first_relation<F: Fs>(
    alloc: Global,
    fs: &mut F,
    site: &ClusterSite,
    relations: &[Relation],
) -> Result<Option<Path>, FsError>
    ensures reads { OnlyReads (record { told = F.told fs.old; firm = F.firm fs.old; depth = F.depth fs.old; trail = F.trail fs.old; counts = F.counts fs.old })
        (record { told = F.told fs.new; firm = F.firm fs.new; depth = F.depth fs.new; trail = F.trail fs.new; counts = F.counts fs.new }) (unless_lack (error_of result)) }
    ensures never_refused { IsNoRefusal result }
    ensures finds { F.told fs.old ≡ true → WellFormed (F.trail fs.old).present → IfOk result (IsFirstAmong (IsBadRelation (F.trail fs.old).present.names (site_at site.now)) relations.now) }
{
    let mut listings = InodeMap::new(alloc);
    for relation in relations {
        match next_relation(alloc, fs, site, &mut listings, *relation) {
            Ok(None) => {}
            Ok(Some(path)) => return Ok(Some(path)),
            Err(error) => return Err(error),
        }
    }
    Ok(None)
}

/// The first file of the old cluster's relations, in the order of the catalog, that is missing or no file: of each relation
/// the first segment of its main fork, which has to be a file; then the least name of its other segments and forks ("Database
/// File Layout") where something else than a file stands. Each directory is listed once, and each name in it looked at once
/// at most. No state is changed, and no refusal is answered.
pub fn missing_file<F: Fs>(
    alloc: Global,
    fs: &mut F,
    old: &Path,
    catalog: &Catalog,
) -> Result<Option<Path>, FsError>
    ensures reads { OnlyReads (record { told = F.told fs.old; firm = F.firm fs.old; depth = F.depth fs.old; trail = F.trail fs.old; counts = F.counts fs.old })
        (record { told = F.told fs.new; firm = F.firm fs.new; depth = F.depth fs.new; trail = F.trail fs.new; counts = F.counts fs.new }) (unless_lack (error_of result)) }
    ensures never_refused { IsNoRefusal result }
    ensures finds { F.told fs.old ≡ true → IfOk result (IsMissingFile (F.trail fs.old).present old.now catalog.now) }
{
    let _ = fs.moment();
    let Ok(relations) = relations_of(alloc, catalog) else {
        return Err(FsError::OutOfMemory);
    };
    let site = ClusterSite {
        root: old,
        release: Release::V15,
        catalog,
    };
    first_relation(alloc, fs, &site, &relations)
}

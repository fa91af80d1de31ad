// The directories of a new cluster, and what is in the way there.
ghost use Rattle.std.specs.Prelude.{◌≡◌, ◌≢◌, ℕ, List, true, IfOk, IfErr, Err, nat_le};
ghost use Rattle.std.specs.Option.{option_map};
ghost use Rattle.std.specs.List.{find, list_all};
ghost use Rattle.fs_model.specs.declared.error.FsError.TheVariants.{OutOfMemory};
ghost use Rattle.fs_model.specs.Trail.{error_of, unless_lack};
ghost use Rattle.fs_model.specs.WellFormed.{WellFormed};
ghost use Rattle.fs_model.specs.Observed.{OnlyReads};
ghost use Rattle.fs_tools.specs.Children.{child_of};
ghost use Rattle.tree_checks.specs.Findings.{IsLeast};
ghost use Rattle.tree_checks.specs.Looks.{IsNoRefusal};
ghost use Rattle.tree_checks.specs.NewDirs.{new_dir, new_dirs, is_digit, is_first_database, is_other_database, is_user_file, is_in_way, IsNameIn, IsUsed};

use crate::least::lesser;
use crate::looks::names_at;
use fs_model::{Fs, FsError, Name, Path, PathError};
use std::alloc::Global;

/// A directory of a new cluster that has to stand, and may hold nothing that an upgrade makes.
#[derive(Clone, Copy, Debug, PartialEq, Eq)]
pub enum NewDir {
    Base,
    /// That of database 1.
    Template1,
    /// That of database 4.
    Template0,
    /// That of database 5.
    Postgres,
    /// `pg_tblspc`.
    Links,
    /// `pg_profile`.
    Profile,
}

/// The directories in the order in which they are tested.
pub(crate) static NEW_DIRS: [NewDir; 6] = [
    NewDir::Base,
    NewDir::Template1,
    NewDir::Template0,
    NewDir::Postgres,
    NewDir::Links,
    NewDir::Profile,
];

/// The path of a directory. `Bad` never comes.
pub(crate) fn new_dir(root: &Path, dir: NewDir) -> Result<Path, PathError>
    ensures { IfOk result (λ path. path ≡ new_dir root.now dir) }
{
    match dir {
        NewDir::Base => root.join(&["base"]),
        NewDir::Template1 => root.join(&["base", "1"]),
        NewDir::Template0 => root.join(&["base", "4"]),
        NewDir::Postgres => root.join(&["base", "5"]),
        NewDir::Links => root.join(&["pg_tblspc"]),
        NewDir::Profile => root.join(&["pg_profile"]),
    }
}

fn is_digit(b: u8) -> bool
    ensures { result ≡ is_digit b }
{
    b >= b'0' && b <= b'9'
}

// Whether a name is that of a database of the start.
fn is_first_database(name: &str) -> bool
    ensures { result ≡ is_first_database name.now }
{
    name == "1" || (name == "4" || name == "5")
}

fn has_digits_alone(name: &str) -> bool
    ensures { result ≡ list_all is_digit name.now }
{
    name.as_bytes().iter().all(|b| is_digit(*b))
}

// Whether a name is of digits alone and none of a database of the start.
fn is_other_database(name: &str) -> bool
    ensures { result ≡ is_other_database name.now }
{
    let digits = has_digits_alone(name);
    let first = is_first_database(name);
    digits && !first
}

// Whether a name begins with a number that the server gives to objects of users (`FirstNormalObjectId` of
// `access/transam.h`).
fn is_user_file(name: &str) -> bool
    ensures { result ≡ is_user_file name.now }
{
    let mut number: u32 = 0;
    for b in name.as_bytes() {
        if !is_digit(*b) {
            return false;
        }
        number = number * 10 + (*b - b'0') as u32;
        if number >= 16384 {
            return true;
        }
    }
    false
}

fn is_in_way(dir: NewDir, name: &Name) -> bool
    ensures { result ≡ is_in_way dir name.now }
{
    match dir {
        NewDir::Base => is_other_database(name.text()),
        NewDir::Template1 => is_user_file(name.text()),
        NewDir::Template0 => is_user_file(name.text()),
        NewDir::Postgres => is_user_file(name.text()),
        NewDir::Links => true,
        NewDir::Profile => name.text() != "catalog.sql",
    }
}

// The path of the first of these names that is in the way.
fn first_in_way(at: &Path, dir: NewDir, names: &[Name]) -> Result<Option<Path>, FsError>
    ensures found { IfOk result (λ found. found ≡ option_map (child_of at.now) (find (is_in_way dir) names.now)) }
    ensures lack { IfErr result (λ error. error ≡ OutOfMemory) }
{
    let Some(name) = names.iter().find(|name| is_in_way(dir, name)) else {
        return Ok(None);
    };
    match at.child(name) {
        Ok(path) => Ok(Some(path)),
        Err(_) => Err(FsError::OutOfMemory),
    }
}

// The least path of a directory that is in the way.
fn least_in<F: Fs>(
    alloc: Global,
    fs: &mut F,
    root: &Path,
    dir: NewDir,
) -> Result<Option<Path>, FsError>
    ensures reads { OnlyReads (record { told = F.told fs.old; firm = F.firm fs.old; depth = F.depth fs.old; trail = F.trail fs.old; counts = F.counts fs.old })
        (record { told = F.told fs.new; firm = F.firm fs.new; depth = F.depth fs.new; trail = F.trail fs.new; counts = F.counts fs.new }) (unless_lack (error_of result)) }
    ensures never_refused { IsNoRefusal result }
    ensures finds { F.told fs.old ≡ true → WellFormed (F.trail fs.old).present
        → IfOk result (IsLeast (IsNameIn (F.trail fs.old).present.names (new_dir root.now dir) (is_in_way dir))) }
{
    let Ok(at) = new_dir(root, dir) else {
        return Err(FsError::OutOfMemory);
    };
    match names_at(alloc, fs, &at) {
        Ok(Some(names)) => first_in_way(&at, dir, &names),
        Ok(None) => Ok(None),
        Err(error) => Err(error),
    }
}

/// The least path of a new cluster that is in the way of an upgrade: in `pg_profile` another name than that of the catalog
/// text, in `pg_tblspc` any name, in `base` the directory of a further database, and in the directories of its first
/// databases a file that begins with the number of a user's object. No state is changed, and no refusal is answered.
pub fn used_path<F: Fs>(alloc: Global, fs: &mut F, root: &Path) -> Result<Option<Path>, FsError>
    ensures reads { OnlyReads (record { told = F.told fs.old; firm = F.firm fs.old; depth = F.depth fs.old; trail = F.trail fs.old; counts = F.counts fs.old })
        (record { told = F.told fs.new; firm = F.firm fs.new; depth = F.depth fs.new; trail = F.trail fs.new; counts = F.counts fs.new }) (unless_lack (error_of result)) }
    ensures never_refused { IsNoRefusal result }
    ensures finds { F.told fs.old ≡ true → IfOk result (IsLeast (IsUsed (F.trail fs.old).present.names root.now)) }
{
    let _ = fs.moment();
    let mut least = None;
    for dir in &NEW_DIRS {
        match least_in(alloc, fs, root, *dir) {
            Ok(found) => least = lesser(least, found),
            Err(error) => return Err(error),
        }
    }
    Ok(least)
}

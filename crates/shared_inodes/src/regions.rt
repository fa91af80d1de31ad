// The directories that two clusters live in.
ghost use Rattle.std.specs.Prelude.{◌≡◌, ◌++◌, true, option_to_list, IfOk, IfErr, OnOk};
ghost use Rattle.std.specs.List.{filter_map};
ghost use Rattle.crash_safety.specs.Places.{locations, target_at, tops_at};
ghost use Rattle.control_file.specs.Version.{dir_name_of};
ghost use Rattle.fs_model.specs.declared.error.FsError.TheVariants.{OutOfMemory};
ghost use Rattle.fs_model.specs.Trail.{error_of, unless_lack};
ghost use Rattle.fs_model.specs.WellFormed.{WellFormed};
ghost use Rattle.fs_model.specs.Observed.{OnlyReads};
ghost use Rattle.tree_checks.specs.Looks.{IsNoRefusal};
ghost use Rattle.tree_checks.specs.Shared.{old_regions, new_regions};
ghost use Rattle.shared_inodes.specs.Regions.{Cover};

use crate::outermost::keep_outermost;
use control_file::Release;
use fs_model::{Fs, FsError, Name, Path, PathError};
use std::alloc::{AllocError, Global};
use tree_checks::{names_at, target_at};

// The target of the symbolic link of this name in a directory, if one stands there.
fn link_in<F: Fs>(
    alloc: Global,
    fs: &mut F,
    dir: &Path,
    name: &Name,
) -> Result<Option<Path>, FsError>
    ensures reads { OnlyReads (record { told = F.told fs.old; firm = F.firm fs.old; depth = F.depth fs.old; trail = F.trail fs.old; counts = F.counts fs.old })
        (record { told = F.told fs.new; firm = F.firm fs.new; depth = F.depth fs.new; trail = F.trail fs.new; counts = F.counts fs.new }) (unless_lack (error_of result)) }
    ensures never_refused { IsNoRefusal result }
    ensures shows { F.told fs.old ≡ true → WellFormed (F.trail fs.old).present → IfOk result (λ target. target ≡ target_at (F.trail fs.old).present.names dir.now name.now) }
{
    let Ok(at) = dir.child(name) else {
        return Err(FsError::OutOfMemory);
    };
    target_at(alloc, fs, &at)
}

fn add(paths: &mut Vec<Path>, path: Option<Path>) -> Result<(), AllocError>
    ensures { OnOk result (paths.new.items ≡ paths.old.items ++ option_to_list path) }
{
    if let Some(path) = path {
        paths.push(path)?;
    }
    Ok(())
}

// Adds the targets of those of these names in a directory that are symbolic links.
fn add_links<F: Fs>(
    alloc: Global,
    fs: &mut F,
    dir: &Path,
    names: &[Name],
    targets: &mut Vec<Path>,
) -> Result<(), FsError>
    ensures reads { OnlyReads (record { told = F.told fs.old; firm = F.firm fs.old; depth = F.depth fs.old; trail = F.trail fs.old; counts = F.counts fs.old })
        (record { told = F.told fs.new; firm = F.firm fs.new; depth = F.depth fs.new; trail = F.trail fs.new; counts = F.counts fs.new }) (unless_lack (error_of result)) }
    ensures never_refused { IsNoRefusal result }
    ensures shows { F.told fs.old ≡ true → WellFormed (F.trail fs.old).present
        → OnOk result (targets.new.items ≡ targets.old.items ++ filter_map (target_at (F.trail fs.old).present.names dir.now) names.now) }
{
    for name in names {
        match link_in(alloc, fs, dir, name) {
            Ok(target) => add(targets, target)?,
            Err(error) => return Err(error),
        }
    }
    Ok(())
}

// Adds the locations of a cluster's tablespaces: none where `pg_tblspc` is no directory.
fn add_locations<F: Fs>(
    alloc: Global,
    fs: &mut F,
    root: &Path,
    found: &mut Vec<Path>,
) -> Result<(), FsError>
    ensures reads { OnlyReads (record { told = F.told fs.old; firm = F.firm fs.old; depth = F.depth fs.old; trail = F.trail fs.old; counts = F.counts fs.old })
        (record { told = F.told fs.new; firm = F.firm fs.new; depth = F.depth fs.new; trail = F.trail fs.new; counts = F.counts fs.new }) (unless_lack (error_of result)) }
    ensures never_refused { IsNoRefusal result }
    ensures shows { F.told fs.old ≡ true → WellFormed (F.trail fs.old).present → OnOk result (found.new.items ≡ found.old.items ++ locations (F.trail fs.old).present.names root.now) }
{
    let Ok(dir) = root.join(&["pg_tblspc"]) else {
        return Err(FsError::OutOfMemory);
    };
    match names_at(alloc, fs, &dir) {
        Ok(Some(names)) => add_links(alloc, fs, &dir, &names, found),
        Ok(None) => Ok(()),
        Err(error) => Err(error),
    }
}

// The directories that a cluster of a release lives in, with these locations of tablespaces.
fn tops(
    alloc: Global,
    locations: &[Path],
    release: Release,
    root: &Path,
) -> Result<Vec<Path>, PathError>
    ensures { IfOk result (λ tops. tops.items ≡ tops_at locations.now (dir_name_of release) root.now) }
{
    let mut tops = Vec::new(alloc);
    tops.push(root.copy()?)?;
    for location in locations {
        tops.push(location.join(&[release.dir_name()])?)?;
    }
    Ok(tops)
}

// The outermost of the directories that a cluster of a release lives in.
fn outer_tops(
    alloc: Global,
    locations: &[Path],
    release: Release,
    root: &Path,
) -> Result<Vec<Path>, FsError>
    ensures cover { IfOk result (λ outer. Cover (tops_at locations.now (dir_name_of release) root.now) outer.items) }
    ensures lack { IfErr result (λ error. error ≡ OutOfMemory) }
{
    match tops(alloc, locations, release, root) {
        Ok(mut tops) => {
            keep_outermost(&mut tops);
            Ok(tops)
        }
        Err(_) => Err(FsError::OutOfMemory),
    }
}

/// The outermost directories of two clusters.
#[derive(Drop)]
pub(crate) struct Regions {
    pub(crate) old: Vec<Path>,
    pub(crate) new: Vec<Path>,
}

/// The outermost of the directories that each of the two clusters lives in: its root and, at each location that a
/// symbolic link of `pg_tblspc` leads to, the directory of its release. The old cluster's links count for the new one too.
pub(crate) fn regions_of<F: Fs>(
    alloc: Global,
    fs: &mut F,
    old: &Path,
    new: &Path,
) -> Result<Regions, FsError>
    ensures reads { OnlyReads (record { told = F.told fs.old; firm = F.firm fs.old; depth = F.depth fs.old; trail = F.trail fs.old; counts = F.counts fs.old })
        (record { told = F.told fs.new; firm = F.firm fs.new; depth = F.depth fs.new; trail = F.trail fs.new; counts = F.counts fs.new }) (unless_lack (error_of result)) }
    ensures never_refused { IsNoRefusal result }
    ensures old { F.told fs.old ≡ true → WellFormed (F.trail fs.old).present → IfOk result (λ regions. Cover (old_regions (F.trail fs.old).present.names old.now) regions.old.items) }
    ensures new { F.told fs.old ≡ true → WellFormed (F.trail fs.old).present → IfOk result (λ regions. Cover (new_regions (F.trail fs.old).present.names old.now new.now) regions.new.items) }
{
    let mut locations = Vec::new(alloc);
    if let Err(error) = add_locations(alloc, fs, old, &mut locations) {
        return Err(error);
    }
    let old = outer_tops(alloc, &locations, Release::V15, old)?;
    if let Err(error) = add_locations(alloc, fs, new, &mut locations) {
        return Err(error);
    }
    let new = outer_tops(alloc, &locations, Release::V16, new)?;
    Ok(Regions { old, new })
}

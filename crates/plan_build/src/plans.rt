// The plan of a transfer by a file map.
ghost use Rattle.std.specs.Prelude.{◌≡◌, ◌++◌, ◌∷◌, [], true, None, IfOk, IfErr, OnOk};
ghost use Rattle.fs_model.specs.declared.error.FsError.TheVariants.{OutOfMemory};
ghost use Rattle.fs_model.specs.WellFormed.{WellFormed};
ghost use Rattle.fs_model.specs.Trail.{DecidedBy, error_of, unless_lack};
ghost use Rattle.fs_model.specs.Observed.{OnlyReads};
ghost use Rattle.relation_map.specs.Equal.{carriage_of};
ghost use Rattle.plan_build.specs.Planned.{file_at, item_of, carriages, plan_in, AddsSegment, AddsFork, AddsRelation, AddsRelations};
ghost use Rattle.plan_build.specs.Plannable.{CanBePlanned, IsPlanOf};

use crate::segments::{file_at, is_carried};
use fs_model::{Fs, FsError, Path};
use relation_files::Fork;
use relation_map::{FileMap, MapEntry};
use std::alloc::Global;
use transfer_plan::{Plan, PlanItem};
use tree_checks::stat_at;

// Both paths of a segment of a fork.
fn paths_of(
    alloc: Global,
    entry: &MapEntry,
    fork: Fork,
    segment: u32,
) -> Result<(Path, Path), FsError>
    ensures from { IfOk result (λ paths. paths.0 ≡ file_at entry.now.from_dir entry.now.file fork segment) }
    ensures to { IfOk result (λ paths. paths.1 ≡ file_at entry.now.to_dir entry.now.file fork segment) }
    ensures lack { IfErr result (λ error. error ≡ OutOfMemory) }
{
    let from = file_at(alloc, &entry.from_dir, entry.file, fork, segment);
    let to = file_at(alloc, &entry.to_dir, entry.file, fork, segment);
    match (from, to) {
        (Ok(from), Ok(to)) => Ok((from, to)),
        _ => Err(FsError::OutOfMemory),
    }
}

// Adds a segment of a fork to the plan.
fn add_item<F: Fs>(
    alloc: Global,
    fs: &mut F,
    entry: &MapEntry,
    fork: Fork,
    segment: u32,
    items: &mut Vec<PlanItem>,
) -> Result<(), FsError>
    ensures reads { OnlyReads (record { told = F.told fs.old; firm = F.firm fs.old; depth = F.depth fs.old; trail = F.trail fs.old; counts = F.counts fs.old })
        (record { told = F.told fs.new; firm = F.firm fs.new; depth = F.depth fs.new; trail = F.trail fs.new; counts = F.counts fs.new }) (unless_lack (error_of result)) }
    ensures item { F.told fs.old ≡ true → WellFormed (F.trail fs.old).present → OnOk result (items.new.items ≡ items.old.items ++ item_of (F.trail fs.old).present (carriage_of entry.now) fork segment ∷ []) }
    ensures unrefused { DecidedBy None result }
{
    let (from, to) = match paths_of(alloc, entry, fork, segment) {
        Ok(paths) => paths,
        Err(_) => return Err(FsError::OutOfMemory),
    };
    let replaces = match stat_at(fs, &to) {
        Ok(stat) => stat.is_some(),
        Err(error) => return Err(error),
    };
    match items.push(PlanItem { from, to, replaces }) {
        Ok(()) => Ok(()),
        Err(_) => Err(FsError::OutOfMemory),
    }
}

// Adds a segment of a fork, where it is carried, and says whether it was.
fn add_segment<F: Fs>(
    alloc: Global,
    fs: &mut F,
    entry: &MapEntry,
    fork: Fork,
    segment: u32,
    items: &mut Vec<PlanItem>,
) -> Result<bool, FsError>
    ensures reads { OnlyReads (record { told = F.told fs.old; firm = F.firm fs.old; depth = F.depth fs.old; trail = F.trail fs.old; counts = F.counts fs.old })
        (record { told = F.told fs.new; firm = F.firm fs.new; depth = F.depth fs.new; trail = F.trail fs.new; counts = F.counts fs.new }) (unless_lack (error_of result)) }
    ensures adds { F.told fs.old ≡ true → WellFormed (F.trail fs.old).present → IfOk result (λ more. AddsSegment (F.trail fs.old).present (carriage_of entry.now) fork segment items.old.items items.new.items more) }
    ensures unrefused { DecidedBy None result }
{
    match is_carried(alloc, fs, entry, fork, segment) {
        Ok(true) => {}
        Ok(false) => return Ok(false),
        Err(error) => return Err(error),
    }
    match add_item(alloc, fs, entry, fork, segment, items) {
        Ok(()) => Ok(true),
        Err(error) => Err(error),
    }
}

// Adds the carried segments of a fork. Want of memory is answered where it has as many as segments can be numbered.
fn add_fork<F: Fs>(
    alloc: Global,
    fs: &mut F,
    entry: &MapEntry,
    fork: Fork,
    items: &mut Vec<PlanItem>,
) -> Result<(), FsError>
    ensures reads { OnlyReads (record { told = F.told fs.old; firm = F.firm fs.old; depth = F.depth fs.old; trail = F.trail fs.old; counts = F.counts fs.old })
        (record { told = F.told fs.new; firm = F.firm fs.new; depth = F.depth fs.new; trail = F.trail fs.new; counts = F.counts fs.new }) (unless_lack (error_of result)) }
    ensures adds { F.told fs.old ≡ true → WellFormed (F.trail fs.old).present → OnOk result (AddsFork (F.trail fs.old).present (carriage_of entry.now) fork items.old.items items.new.items) }
    ensures unrefused { DecidedBy None result }
{
    for segment in 0..u32::MAX {
        match add_segment(alloc, fs, entry, fork, segment, items) {
            Ok(true) => {}
            Ok(false) => return Ok(()),
            Err(error) => return Err(error),
        }
    }
    Err(FsError::OutOfMemory)
}

// Adds the carried files of a relation.
fn add_entry<F: Fs>(
    alloc: Global,
    fs: &mut F,
    entry: &MapEntry,
    items: &mut Vec<PlanItem>,
) -> Result<(), FsError>
    ensures reads { OnlyReads (record { told = F.told fs.old; firm = F.firm fs.old; depth = F.depth fs.old; trail = F.trail fs.old; counts = F.counts fs.old })
        (record { told = F.told fs.new; firm = F.firm fs.new; depth = F.depth fs.new; trail = F.trail fs.new; counts = F.counts fs.new }) (unless_lack (error_of result)) }
    ensures adds { F.told fs.old ≡ true → WellFormed (F.trail fs.old).present → OnOk result (AddsRelation (F.trail fs.old).present (carriage_of entry.now) items.old.items items.new.items) }
    ensures unrefused { DecidedBy None result }
{
    match add_fork(alloc, fs, entry, Fork::Main, items) {
        Ok(()) => {}
        Err(error) => return Err(error),
    }
    match add_fork(alloc, fs, entry, Fork::FreeSpace, items) {
        Ok(()) => {}
        Err(error) => return Err(error),
    }
    add_fork(alloc, fs, entry, Fork::Visibility, items)
}

// Adds the carried files of all relations.
fn add_entries<F: Fs>(
    alloc: Global,
    fs: &mut F,
    entries: &[MapEntry],
    items: &mut Vec<PlanItem>,
) -> Result<(), FsError>
    ensures reads { OnlyReads (record { told = F.told fs.old; firm = F.firm fs.old; depth = F.depth fs.old; trail = F.trail fs.old; counts = F.counts fs.old })
        (record { told = F.told fs.new; firm = F.firm fs.new; depth = F.depth fs.new; trail = F.trail fs.new; counts = F.counts fs.new }) (unless_lack (error_of result)) }
    ensures adds { F.told fs.old ≡ true → WellFormed (F.trail fs.old).present → OnOk result (AddsRelations (F.trail fs.old).present (carriages entries.now) items.old.items items.new.items) }
    ensures unrefused { DecidedBy None result }
{
    for entry in entries {
        match add_entry(alloc, fs, entry, items) {
            Ok(()) => {}
            Err(error) => return Err(error),
        }
    }
    Ok(())
}

/// Which files the relations of a map carry, in its order: of each relation the main fork, the free space map and the
/// visibility map, and of each of them the segments up to the first that is missing or empty. Each carried file is looked
/// at once, and so is the end of each fork and each new name. What is no file counts as missing, so no refusal is
/// answered. (`transfer_single_new_db` and `transfer_relfile` of `src/bin/pg_upgrade/relfilenumber.c`.)
#[tactic(auto, unfolding(crate::specs::Planned::plan_in))]
pub fn plan_of<F: Fs>(alloc: Global, fs: &mut F, map: &FileMap) -> Result<Plan, FsError>
    ensures reads { OnlyReads (record { told = F.told fs.old; firm = F.firm fs.old; depth = F.depth fs.old; trail = F.trail fs.old; counts = F.counts fs.old })
        (record { told = F.told fs.new; firm = F.firm fs.new; depth = F.depth fs.new; trail = F.trail fs.new; counts = F.counts fs.new }) (unless_lack (error_of result)) }
    ensures plan { F.told fs.old ≡ true → IfOk result (λ plan. plan ≡ plan_in (F.trail fs.old).present map.now) }
    ensures of { F.told fs.old ≡ true → CanBePlanned (F.trail fs.old).present map.now → IfOk result (λ plan. IsPlanOf (F.trail fs.old).present map.now plan) }
    ensures unrefused { DecidedBy None result }
{
    // It says that the state is well-formed.
    let _ = fs.moment();
    let mut items = Vec::new(alloc);
    match add_entries(alloc, fs, map.entries(), &mut items) {
        Ok(()) => Ok(Plan::new(items)),
        Err(error) => Err(error),
    }
}

// The segments of a fork that have its blocks.
ghost use Rattle.std.specs.Prelude.{◌≡◌, ◌-◌, ◌*◌, ℕ, List, [], true, None, length, IfOk, OnOk, option_map, if◌then◌else◌};
ghost use Rattle.std.specs.List.{flat_map, AllByRecursion};
ghost use Rattle.fs_model.specs.State.{FsState};
ghost use Rattle.fs_model.specs.Reading.{file_bytes};
ghost use Rattle.fs_model.specs.WellFormed.{WellFormed};
ghost use Rattle.fs_model.specs.Trail.{DecidedBy, error_of, unless_lack};
ghost use Rattle.fs_model.specs.Observed.{Observed, OnlyReads};
ghost use Rattle.relation_files.specs.Places.{fork_files};
ghost use Rattle.relation_files.specs.Sites.{site_at};
ghost use Rattle.cluster_meaning.specs.Blocks.{blocks_of, blocks_then, numbered};
ghost use Rattle.fork_read.specs.Extents.{IsBacked, extent_blocks, extents_told};

use crate::reads::file_size;
use fs_model::{Fs, FsError, Path};
use heap_page::PAGE_SIZE;
use relation_files::{ClusterSite, Fork, Relation, segment_path};
use std::alloc::{AllocError, Global};

/// A segment of a fork, with the blocks of it that count.
#[derive(Drop)]
pub struct Extent {
    pub path: Path,
    /// The number that its first block has in the fork.
    pub first: u32,
    /// How many of its blocks count.
    pub blocks: u32,
}

/// The segments of a fork, as far as they were found, and how many blocks more may count.
#[derive(Drop)]
pub struct Extents {
    pub items: Vec<Extent>,
    pub room: u32,
}

// Adds a segment of this size, if it stands, and says whether the next one belongs to the fork.
fn add_extent(
    extents: &mut Extents,
    path: Path,
    size: Option<u64>,
    full: u64,
) -> Result<bool, AllocError>
    ensures told { (s : FsState) (relseg_size : ℕ) (behind : List (List ℕ)) → full ≡ relseg_size * PAGE_SIZE → size ≡ option_map length (file_bytes s path)
        → IfOk result (λ more. extents_told s extents.new (if more then behind else []) ≡ extents_told s extents.old (blocks_then relseg_size (file_bytes s path) behind)) }
    ensures backed { (s : FsState) → size ≡ option_map length (file_bytes s path) → AllByRecursion (IsBacked s) extents.old.items.items
        → OnOk result (AllByRecursion (IsBacked s) extents.new.items.items) }
{
    let Some(size) = size else {
        return Ok(false);
    };
    let blocks = (size / PAGE_SIZE as u64).min(extents.room as u64) as u32;
    let first = u32::MAX - extents.room;
    extents.items.push(Extent {
        path,
        first,
        blocks,
    })?;
    extents.room -= blocks;
    Ok(size == full)
}

// Looks at a segment of a fork, and says whether the next one belongs to it.
fn find_segment<F: Fs>(
    alloc: Global,
    fs: &mut F,
    site: &ClusterSite,
    relation: Relation,
    fork: Fork,
    segment: u32,
    relseg_size: u32,
    extents: &mut Extents,
) -> Result<bool, FsError>
    ensures reads { OnlyReads (record { told = F.told fs.old; firm = F.firm fs.old; depth = F.depth fs.old; trail = F.trail fs.old; counts = F.counts fs.old })
        (record { told = F.told fs.new; firm = F.firm fs.new; depth = F.depth fs.new; trail = F.trail fs.new; counts = F.counts fs.new }) (unless_lack (error_of result)) }
    ensures unrefused { DecidedBy None result }
    ensures found { F.told fs.old ≡ true → WellFormed (F.trail fs.old).present → (behind : List (List ℕ)) → IfOk result (λ more.
        extents_told (F.trail fs.old).present extents.new (if more then behind else [])
        ≡ extents_told (F.trail fs.old).present extents.old
        (blocks_then relseg_size (fork_files (F.trail fs.old).present (site_at site.now) relation fork segment) behind)) }
    ensures backed { F.told fs.old ≡ true → WellFormed (F.trail fs.old).present → AllByRecursion (IsBacked (F.trail fs.old).present) extents.old.items.items
        → OnOk result (AllByRecursion (IsBacked (F.trail fs.old).present) extents.new.items.items) }
{
    let Ok(path) = segment_path(alloc, site, relation, fork, segment) else {
        return Err(FsError::OutOfMemory);
    };
    let size = match file_size(fs, &path) {
        Ok(size) => size,
        Err(error) => return Err(error),
    };
    match add_extent(extents, path, size, relseg_size as u64 * PAGE_SIZE as u64) {
        Ok(more) => Ok(more),
        Err(_) => Err(FsError::OutOfMemory),
    }
}

/// The segments of a fork that have its blocks, each looked at once. What is no file counts as missing, so no refusal is
/// answered. A segment may be longer than `relseg_size` says, and all its blocks count then.
pub fn extents_of<F: Fs>(
    alloc: Global,
    fs: &mut F,
    site: &ClusterSite,
    relation: Relation,
    fork: Fork,
    relseg_size: u32,
) -> Result<Vec<Extent>, FsError>
    ensures reads { OnlyReads (record { told = F.told fs.old; firm = F.firm fs.old; depth = F.depth fs.old; trail = F.trail fs.old; counts = F.counts fs.old })
        (record { told = F.told fs.new; firm = F.firm fs.new; depth = F.depth fs.new; trail = F.trail fs.new; counts = F.counts fs.new }) (unless_lack (error_of result)) }
    ensures unrefused { DecidedBy None result }
    ensures blocks { F.told fs.old ≡ true → WellFormed (F.trail fs.old).present → IfOk result (λ extents.
        flat_map (extent_blocks (F.trail fs.old).present) extents.items
        ≡ numbered 0 (blocks_of relseg_size (fork_files (F.trail fs.old).present (site_at site.now) relation fork))) }
    ensures backed { F.told fs.old ≡ true → WellFormed (F.trail fs.old).present → IfOk result (λ extents. AllByRecursion (IsBacked (F.trail fs.old).present) extents.items) }
{
    let mut extents = Extents {
        items: Vec::new(alloc),
        room: u32::MAX,
    };
    for segment in 0..u32::MAX {
        match find_segment(
            alloc,
            fs,
            site,
            relation,
            fork,
            segment,
            relseg_size,
            &mut extents,
        ) {
            Ok(true) => {}
            Ok(false) => return Ok(extents.items),
            Err(error) => return Err(error),
        }
    }
    Ok(extents.items)
}

// What a fork holds.
ghost use Rattle.std.specs.Prelude.{◌≡◌, ℕ, List, true, None, length, IfOk};
ghost use Rattle.std.specs.List.{flat_map, AllByRecursion};
ghost use Rattle.fs_model.specs.WellFormed.{WellFormed};
ghost use Rattle.fs_model.specs.Trail.{DecidedBy, error_of, unless_lack};
ghost use Rattle.fs_model.specs.Observed.{Observed, OnlyReads};
ghost use Rattle.relation_files.specs.Places.{fork_files};
ghost use Rattle.relation_files.specs.Sites.{site_at};
ghost use Rattle.relation_files.specs.declared.relation.Fork.TheVariants.{Main};
ghost use Rattle.cluster_meaning.specs.Blocks.{blocks_of, numbered};
ghost use Rattle.cluster_meaning.specs.Chunks.{chunks_of_blocks};
ghost use Rattle.block_rows.specs.Sources.{reading_of};
ghost use Rattle.block_rows.specs.Rows.{TellsRows};
ghost use Rattle.fork_read.specs.Extents.{IsBacked, extent_blocks};

use crate::scan::{add_all_chunks, add_rows};
use block_rows::{Reader, Rows};
use fork_read::{Extent, PIECE_BLOCKS, extents_of};
use fs_model::{Fs, FsError};
use heap_page::PAGE_SIZE;
use relation_files::{ClusterSite, Fork, Relation};
use std::alloc::Global;
use toast_read::Chunk;
use visibility::Lookup;

// What a snapshot sees in the segments that were found.
fn read_rows<F: Fs, L: Lookup>(
    alloc: Global,
    fs: &mut F,
    extents: &[Extent],
    reader: &Reader<L>,
) -> Result<Rows, FsError>
    requires { length reader.now.source.shapes.now ≡ length reader.now.source.columns.now }
    ensures reads { OnlyReads (record { told = F.told fs.old; firm = F.firm fs.old; depth = F.depth fs.old; trail = F.trail fs.old; counts = F.counts fs.old })
        (record { told = F.told fs.new; firm = F.firm fs.new; depth = F.depth fs.new; trail = F.trail fs.new; counts = F.counts fs.new }) (unless_lack (error_of result)) }
    ensures rows { let reading = reading_of reader.now.source (L.fates reader.now.look.now) (L.updaters reader.now.look.now) in
        (blocks : List (List ℕ)) → F.told fs.old ≡ true → AllByRecursion (IsBacked (F.trail fs.old).present) extents.now
        → flat_map (extent_blocks (F.trail fs.old).present) extents.now ≡ numbered 0 blocks
        → IfOk result (TellsRows reading reader.now.snapshot.now blocks) }
    ensures unrefused { F.told fs.old ≡ true → WellFormed (F.trail fs.old).present → AllByRecursion (IsBacked (F.trail fs.old).present) extents.now → DecidedBy None result }
{
    let mut buffer = vec![in alloc; 0u8; PIECE_BLOCKS as usize * PAGE_SIZE]?;
    let mut rows = Rows {
        rows: Vec::new(alloc),
        unread: Vec::new(alloc),
        unknown: 0,
    };
    match add_rows(alloc, fs, extents, &mut buffer, reader, &mut rows) {
        Ok(()) => Ok(rows),
        Err(error) => Err(error),
    }
}

/// What a snapshot sees in the main fork of a relation, which is read in pieces of at most `PIECE_BLOCKS` blocks. What is no
/// file counts as a missing segment.
pub fn fork_rows<F: Fs, L: Lookup>(
    alloc: Global,
    fs: &mut F,
    site: &ClusterSite,
    relation: Relation,
    relseg_size: u32,
    reader: &Reader<L>,
) -> Result<Rows, FsError>
    requires { length reader.now.source.shapes.now ≡ length reader.now.source.columns.now }
    ensures reads { OnlyReads (record { told = F.told fs.old; firm = F.firm fs.old; depth = F.depth fs.old; trail = F.trail fs.old; counts = F.counts fs.old })
        (record { told = F.told fs.new; firm = F.firm fs.new; depth = F.depth fs.new; trail = F.trail fs.new; counts = F.counts fs.new }) (unless_lack (error_of result)) }
    ensures rows { let reading = reading_of reader.now.source (L.fates reader.now.look.now) (L.updaters reader.now.look.now) in
        F.told fs.old ≡ true → WellFormed (F.trail fs.old).present
        → IfOk result (TellsRows reading reader.now.snapshot.now (blocks_of relseg_size (fork_files (F.trail fs.old).present (site_at site.now) relation Main))) }
    ensures unrefused { F.told fs.old ≡ true → WellFormed (F.trail fs.old).present → DecidedBy None result }
{
    let extents = match extents_of(alloc, fs, site, relation, Fork::Main, relseg_size) {
        Ok(extents) => extents,
        Err(error) => return Err(error),
    };
    read_rows(alloc, fs, &extents, reader)
}

// The chunks that a toast table has in the segments that were found.
fn read_chunks<F: Fs>(alloc: Global, fs: &mut F, extents: &[Extent]) -> Result<Vec<Chunk>, FsError>
    ensures reads { OnlyReads (record { told = F.told fs.old; firm = F.firm fs.old; depth = F.depth fs.old; trail = F.trail fs.old; counts = F.counts fs.old })
        (record { told = F.told fs.new; firm = F.firm fs.new; depth = F.depth fs.new; trail = F.trail fs.new; counts = F.counts fs.new }) (unless_lack (error_of result)) }
    ensures chunks { (blocks : List (List ℕ)) → F.told fs.old ≡ true → AllByRecursion (IsBacked (F.trail fs.old).present) extents.now
        → flat_map (extent_blocks (F.trail fs.old).present) extents.now ≡ numbered 0 blocks
        → IfOk result (λ chunks. chunks.items ≡ chunks_of_blocks blocks) }
    ensures unrefused { F.told fs.old ≡ true → WellFormed (F.trail fs.old).present → AllByRecursion (IsBacked (F.trail fs.old).present) extents.now → DecidedBy None result }
{
    let mut buffer = vec![in alloc; 0u8; PIECE_BLOCKS as usize * PAGE_SIZE]?;
    let mut chunks = Vec::new(alloc);
    match add_all_chunks(alloc, fs, extents, &mut buffer, &mut chunks) {
        Ok(()) => Ok(chunks),
        Err(error) => Err(error),
    }
}

/// The chunks that a toast table has in its main fork, in the order of its blocks. What is no file counts as a missing
/// segment.
pub fn fork_chunks<F: Fs>(
    alloc: Global,
    fs: &mut F,
    site: &ClusterSite,
    relation: Relation,
    relseg_size: u32,
) -> Result<Vec<Chunk>, FsError>
    ensures reads { OnlyReads (record { told = F.told fs.old; firm = F.firm fs.old; depth = F.depth fs.old; trail = F.trail fs.old; counts = F.counts fs.old })
        (record { told = F.told fs.new; firm = F.firm fs.new; depth = F.depth fs.new; trail = F.trail fs.new; counts = F.counts fs.new }) (unless_lack (error_of result)) }
    ensures chunks { F.told fs.old ≡ true → WellFormed (F.trail fs.old).present → IfOk result (λ chunks.
        chunks.items ≡ chunks_of_blocks (blocks_of relseg_size (fork_files (F.trail fs.old).present (site_at site.now) relation Main))) }
    ensures unrefused { F.told fs.old ≡ true → WellFormed (F.trail fs.old).present → DecidedBy None result }
{
    let extents = match extents_of(alloc, fs, site, relation, Fork::Main, relseg_size) {
        Ok(extents) => extents,
        Err(error) => return Err(error),
    };
    read_chunks(alloc, fs, &extents)
}

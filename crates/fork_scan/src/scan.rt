// The pieces of the segments that were found, one after another.
ghost use Rattle.std.specs.Prelude.{◌≡◌, ◌≤◌, ◌+◌, ◌*◌, ◌^◌, ◌++◌, true, None, length, IfOk, OnOk};
ghost use Rattle.std.specs.Int.{div_ceil};
ghost use Rattle.std.specs.List.{flat_map, AllByRecursion};
ghost use Rattle.fs_model.specs.WellFormed.{WellFormed};
ghost use Rattle.fs_model.specs.Trail.{DecidedBy, error_of, unless_lack};
ghost use Rattle.cluster_meaning.specs.Chunks.{chunks_in};
ghost use Rattle.block_rows.specs.Sources.{reading_of};
ghost use Rattle.block_rows.specs.Rows.{AddsRows};
ghost use Rattle.fs_model.specs.Observed.{Observed, OnlyReads};
ghost use Rattle.fork_read.specs.Extents.{IsBacked, extent_blocks};
ghost use Rattle.fork_scan.specs.Scans.{chunks_at};

use crate::pieces::{add_piece_chunks, add_piece_rows};
use block_rows::{Reader, Rows};
use fork_read::{Extent, PIECE_BLOCKS, read_piece};
use fs_model::{Fs, FsError};
use heap_page::PAGE_SIZE;
use std::alloc::Global;
use toast_read::Chunk;
use visibility::Lookup;

// How many pieces so many blocks make. The last of them may have fewer blocks than the others.
fn pieces_of(blocks: u32) -> u32
    ensures count { result ≡ div_ceil blocks PIECE_BLOCKS }
    ensures fits { result * PIECE_BLOCKS ≤ 2 ^ 32 + 126 }
{
    blocks.div_ceil(PIECE_BLOCKS)
}

// Adds what a snapshot sees in a segment. The buffer takes a piece.
fn add_extent_rows<F: Fs, L: Lookup>(
    alloc: Global,
    fs: &mut F,
    extent: &Extent,
    buffer: &mut [u8],
    reader: &Reader<L>,
    rows: &mut Rows,
) -> Result<(), FsError>
    requires whole { length buffer.old ≡ PIECE_BLOCKS * PAGE_SIZE }
    requires shapes { length reader.now.source.shapes.now ≡ length reader.now.source.columns.now }
    ensures reads { OnlyReads (record { told = F.told fs.old; firm = F.firm fs.old; depth = F.depth fs.old; trail = F.trail fs.old; counts = F.counts fs.old })
        (record { told = F.told fs.new; firm = F.firm fs.new; depth = F.depth fs.new; trail = F.trail fs.new; counts = F.counts fs.new }) (unless_lack (error_of result)) }
    ensures rows { let reading = reading_of reader.now.source (L.fates reader.now.look.now) (L.updaters reader.now.look.now) in
        F.told fs.old ≡ true → IsBacked (F.trail fs.old).present extent.now
        → OnOk result (AddsRows reading reader.now.snapshot.now (extent_blocks (F.trail fs.old).present extent.now) rows.old rows.new) }
    ensures unrefused { F.told fs.old ≡ true → WellFormed (F.trail fs.old).present → IsBacked (F.trail fs.old).present extent.now → DecidedBy None result }
{
    for piece in 0..pieces_of(extent.blocks) {
        let n = piece * PIECE_BLOCKS;
        let count = match read_piece(fs, &extent.path, n, &mut *buffer) {
            Ok(count) => count,
            Err(error) => return Err(error),
        };
        let blocks = PIECE_BLOCKS.min(extent.blocks - n);
        let first = extent.first.wrapping_add(n);
        match add_piece_rows(alloc, &buffer[..count], blocks, first, reader, rows) {
            Ok(()) => {}
            Err(_) => return Err(FsError::OutOfMemory),
        }
    }
    Ok(())
}

// Adds the chunks that a toast table has in a segment. The buffer takes a piece.
fn add_extent_chunks<F: Fs>(
    alloc: Global,
    fs: &mut F,
    extent: &Extent,
    buffer: &mut [u8],
    chunks: &mut Vec<Chunk>,
) -> Result<(), FsError>
    requires { length buffer.old ≡ PIECE_BLOCKS * PAGE_SIZE }
    ensures reads { OnlyReads (record { told = F.told fs.old; firm = F.firm fs.old; depth = F.depth fs.old; trail = F.trail fs.old; counts = F.counts fs.old })
        (record { told = F.told fs.new; firm = F.firm fs.new; depth = F.depth fs.new; trail = F.trail fs.new; counts = F.counts fs.new }) (unless_lack (error_of result)) }
    ensures chunks { F.told fs.old ≡ true → IsBacked (F.trail fs.old).present extent.now
        → OnOk result (chunks.new.items ≡ chunks.old.items ++ flat_map chunks_at (extent_blocks (F.trail fs.old).present extent.now)) }
    ensures unrefused { F.told fs.old ≡ true → WellFormed (F.trail fs.old).present → IsBacked (F.trail fs.old).present extent.now → DecidedBy None result }
{
    for piece in 0..pieces_of(extent.blocks) {
        let n = piece * PIECE_BLOCKS;
        let count = match read_piece(fs, &extent.path, n, &mut *buffer) {
            Ok(count) => count,
            Err(error) => return Err(error),
        };
        let blocks = PIECE_BLOCKS.min(extent.blocks - n);
        match add_piece_chunks(alloc, &buffer[..count], blocks, chunks) {
            Ok(()) => {}
            Err(_) => return Err(FsError::OutOfMemory),
        }
    }
    Ok(())
}

/// Adds what a snapshot sees in segments, one after another. The buffer takes a piece.
pub(crate) fn add_rows<F: Fs, L: Lookup>(
    alloc: Global,
    fs: &mut F,
    extents: &[Extent],
    buffer: &mut [u8],
    reader: &Reader<L>,
    rows: &mut Rows,
) -> Result<(), FsError>
    requires whole { length buffer.old ≡ PIECE_BLOCKS * PAGE_SIZE }
    requires shapes { length reader.now.source.shapes.now ≡ length reader.now.source.columns.now }
    ensures reads { OnlyReads (record { told = F.told fs.old; firm = F.firm fs.old; depth = F.depth fs.old; trail = F.trail fs.old; counts = F.counts fs.old })
        (record { told = F.told fs.new; firm = F.firm fs.new; depth = F.depth fs.new; trail = F.trail fs.new; counts = F.counts fs.new }) (unless_lack (error_of result)) }
    ensures rows { let reading = reading_of reader.now.source (L.fates reader.now.look.now) (L.updaters reader.now.look.now) in
        F.told fs.old ≡ true → AllByRecursion (IsBacked (F.trail fs.old).present) extents.now
        → OnOk result (AddsRows reading reader.now.snapshot.now (flat_map (extent_blocks (F.trail fs.old).present) extents.now) rows.old rows.new) }
    ensures unrefused { F.told fs.old ≡ true → WellFormed (F.trail fs.old).present → AllByRecursion (IsBacked (F.trail fs.old).present) extents.now → DecidedBy None result }
{
    for extent in extents {
        match add_extent_rows(alloc, fs, extent, &mut *buffer, reader, rows) {
            Ok(()) => {}
            Err(error) => return Err(error),
        }
    }
    Ok(())
}

/// Adds the chunks that a toast table has in segments, one after another. The buffer takes a piece.
pub(crate) fn add_all_chunks<F: Fs>(
    alloc: Global,
    fs: &mut F,
    extents: &[Extent],
    buffer: &mut [u8],
    chunks: &mut Vec<Chunk>,
) -> Result<(), FsError>
    requires { length buffer.old ≡ PIECE_BLOCKS * PAGE_SIZE }
    ensures reads { OnlyReads (record { told = F.told fs.old; firm = F.firm fs.old; depth = F.depth fs.old; trail = F.trail fs.old; counts = F.counts fs.old })
        (record { told = F.told fs.new; firm = F.firm fs.new; depth = F.depth fs.new; trail = F.trail fs.new; counts = F.counts fs.new }) (unless_lack (error_of result)) }
    ensures chunks { F.told fs.old ≡ true → AllByRecursion (IsBacked (F.trail fs.old).present) extents.now
        → OnOk result (chunks.new.items ≡ chunks.old.items ++ flat_map chunks_at (flat_map (extent_blocks (F.trail fs.old).present) extents.now)) }
    ensures unrefused { F.told fs.old ≡ true → WellFormed (F.trail fs.old).present → AllByRecursion (IsBacked (F.trail fs.old).present) extents.now → DecidedBy None result }
{
    for extent in extents {
        match add_extent_chunks(alloc, fs, extent, &mut *buffer, chunks) {
            Ok(()) => {}
            Err(error) => return Err(error),
        }
    }
    Ok(())
}

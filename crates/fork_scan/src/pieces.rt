// The blocks of a piece that was read, one after another.
ghost use Rattle.std.specs.Prelude.{◌≡◌, ◌++◌, ◌+◌, ◌-◌, ◌*◌, ◌^◌, ◌≤◌, length, take, OnOk};
ghost use Rattle.std.specs.List.{flat_map, slice_range};
ghost use Rattle.cluster_meaning.specs.Blocks.{blocks_in, numbered};
ghost use Rattle.cluster_meaning.specs.Chunks.{chunks_in};
ghost use Rattle.block_rows.specs.Sources.{reading_of};
ghost use Rattle.block_rows.specs.Rows.{AddsRows};

use block_rows::{Reader, Rows, add_block, add_chunks};
use heap_page::PAGE_SIZE;
use std::alloc::{AllocError, Global};
use toast_read::Chunk;
use visibility::Lookup;

// A block of a piece. Where a file system read less than the block, it is what was read of it.
fn block_of(piece: &[u8], n: u32) -> &[u8]
    ensures { result.now ≡ slice_range piece.now (PAGE_SIZE * n) (PAGE_SIZE * n + PAGE_SIZE) }
{
    let from = piece.len().min(n as usize * PAGE_SIZE);
    let to = piece.len().min(from + PAGE_SIZE);
    &piece[from..to]
}

/// Adds what a snapshot sees in the first blocks of a piece, of which the first has this number in the fork.
pub(crate) fn add_piece_rows<L: Lookup>(
    alloc: Global,
    piece: &[u8],
    blocks: u32,
    first: u32,
    reader: &Reader<L>,
    rows: &mut Rows,
) -> Result<(), AllocError>
    requires { length reader.now.source.shapes.now ≡ length reader.now.source.columns.now }
    ensures { let reading = reading_of reader.now.source (L.fates reader.now.look.now) (L.updaters reader.now.look.now) in
        blocks ≤ length (blocks_in piece.now) → first + blocks ≤ 2 ^ 32 - 1
        → OnOk result (AddsRows reading reader.now.snapshot.now (numbered first (take blocks (blocks_in piece.now))) rows.old rows.new) }
{
    for n in 0..blocks {
        let number = first.wrapping_add(n);
        add_block(alloc, reader, number, block_of(piece, n), rows)?;
    }
    Ok(())
}

/// Adds the chunks that a toast table has in the first blocks of a piece.
pub(crate) fn add_piece_chunks(
    alloc: Global,
    piece: &[u8],
    blocks: u32,
    chunks: &mut Vec<Chunk>,
) -> Result<(), AllocError>
    ensures { blocks ≤ length (blocks_in piece.now) → OnOk result (chunks.new.items ≡ chunks.old.items ++ flat_map chunks_in (take blocks (blocks_in piece.now))) }
{
    for n in 0..blocks {
        add_chunks(alloc, block_of(piece, n), chunks)?;
    }
    Ok(())
}

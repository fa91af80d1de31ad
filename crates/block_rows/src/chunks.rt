// The chunks of a toast table.
ghost use Rattle.std.specs.Prelude.{◌≡◌, ◌++◌, IfOk, OnOk, Ok, Some, None};
ghost use Rattle.cluster_meaning.specs.Chunks.{counts, chunk_of, chunk_in_fields, chunks_in, chunk_shapes};

use crate::values::number_in;
use fs_model::Bytes;
use heap_page::Page;
use heap_tuple::{Align, Field, Header, Shape, XMIN_COMMITTED, XMIN_INVALID, column};
use std::alloc::{AllocError, Global};
use toast_read::Chunk;

// The columns `chunk_id`, `chunk_seq` and `chunk_data`.
const CHUNK_SHAPES: [Shape; 3] = [
    Shape {
        length: 4,
        align: Align::I,
    },
    Shape {
        length: 4,
        align: Align::I,
    },
    Shape {
        length: -1,
        align: Align::I,
    },
];

// Whether a row counts, by its header alone (`HeapTupleSatisfiesToast`).
fn counts(header: &Header) -> bool
    ensures { result ≡ counts header.now }
{
    if header.infomask & XMIN_COMMITTED != 0 {
        return true;
    }
    header.infomask & XMIN_INVALID == 0 && header.xmin != 0
}

// The chunk in the columns of a row.
fn chunk_in_fields(alloc: Global, tuple: &[u8]) -> Result<Option<Chunk>, AllocError>
    ensures { IfOk result (λ chunk. chunk ≡ chunk_in_fields tuple.now) }
{
    let Ok(Field::Bytes(value)) = column(tuple, &CHUNK_SHAPES, 0) else {
        return Ok(None);
    };
    let Ok(Field::Bytes(seq)) = column(tuple, &CHUNK_SHAPES, 1) else {
        return Ok(None);
    };
    let Ok(Field::Bytes(part)) = column(tuple, &CHUNK_SHAPES, 2) else {
        return Ok(None);
    };
    Ok(Some(Chunk {
        value: number_in(value),
        seq: number_in(seq),
        bytes: Bytes::new(Vec::from_slice(alloc, part)?),
    }))
}

// The chunk that a tuple of a toast table has, if it counts.
#[tactic(auto, unfolding(cluster_meaning::specs::Chunks::chunk_of))]
fn chunk_of(alloc: Global, tuple: &[u8]) -> Result<Option<Chunk>, AllocError>
    ensures { IfOk result (λ chunk. chunk ≡ chunk_of tuple.now) }
{
    match Header::read(tuple) {
        Ok(header) if counts(&header) => chunk_in_fields(alloc, tuple),
        Ok(_) => Ok(None),
        Err(_) => Ok(None),
    }
}

/// Adds the chunks of a block of a toast table. A block that is no page has none.
pub fn add_chunks(alloc: Global, block: &[u8], chunks: &mut Vec<Chunk>) -> Result<(), AllocError>
    ensures { OnOk result (chunks.new.items ≡ chunks.old.items ++ chunks_in block.now) }
{
    let Ok(page) = Page::over(block) else {
        return Ok(());
    };
    for (_, tuple) in page.items() {
        if let Some(chunk) = chunk_of(alloc, tuple)? {
            chunks.push(chunk)?;
        }
    }
    Ok(())
}

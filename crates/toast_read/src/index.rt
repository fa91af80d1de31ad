ghost use Rattle.std.specs.Prelude.{◌≡◌, ◌≢◌, ◌++◌, ◌∷◌, [], Ok, Err, IfOk, IfErr, OnOk};
ghost use Rattle.std.specs.Prelude.{ℕ};
ghost use Rattle.std.specs.Option.{unwrap_or};
ghost use Rattle.std.specs.FinMap as map;
ghost use Rattle.toast_read.specs.declared.error.ToastError.TheVariants.{OutOfMemory};
ghost use Rattle.toast_read.specs.Index.{chunks_at, fetched_from, IsIndexOf};

use crate::chunk::{Chunk, ChunkList};
use crate::error::ToastError;
use crate::join::join;
use heap_tuple::ToastPointer;
use std::alloc::{AllocError, Global};
use std::collections::BTreeMap;
use std::marker::Model;

/// The chunks of a toast table by the values that they are of. A contract sees a finite map from the ids of values to
/// lists of chunks.
#[derive(Drop)]
pub struct ToastIndex {
    alloc: Global,
    values: BTreeMap<u32, ChunkList>,
}

impl Model for ToastIndex {
    ghost use Rattle.std.specs.Prelude.{List};
    ghost use Rattle.std.specs.FinMap as map;
    ghost use Rattle.std.specs.Ordering.{nat_cmp};
    ghost use Rattle.toast_read.specs.declared.chunk.Chunk.{Chunk};
    ghost use Rattle.toast_read.specs.Index.{index_code};

    ghost Value = { map.FinMap nat_cmp (List Chunk) };

    ghost coded = { index_code };

    ghost view = { λ a. map.from_entries a.values.entries };
}

impl ToastIndex {
    /// Sorts chunks by their values. Those of one value stay in the order in which they came.
    pub fn build(alloc: Global, chunks: Vec<Chunk>) -> Result<ToastIndex, ToastError>
        ensures index { IfOk result (λ index. IsIndexOf index chunks.items) }
        ensures error { IfErr result (λ error. error ≡ OutOfMemory) }
    {
        let mut index = ToastIndex {
            alloc,
            values: BTreeMap::new(alloc),
        };
        for chunk in chunks {
            index.add(chunk)?;
        }
        Ok(index)
    }

    /// The bytes of the value that a pointer leads to: its chunks in the order of their numbers. `NoChunk` comes first,
    /// then `Twice`, then `Size`.
    pub fn fetch(&self, pointer: &ToastPointer) -> Result<Vec<u8>, ToastError>
        ensures value { IfOk result (λ value. fetched_from self.now pointer.now ≡ Ok value.items) }
        ensures error { IfErr result (λ error. error ≢ OutOfMemory → fetched_from self.now pointer.now ≡ Err error) }
    {
        join(self.alloc, self.chunks_of(pointer.value), pointer.size)
    }

    // Lends the chunks of a value.
    fn chunks_of(&self, value: u32) -> &[Chunk]
        ensures { result.now ≡ chunks_at self.now value }
    {
        match self.values.get(&value) {
            Some(chunks) => chunks.items(),
            None => &[],
        }
    }

    // Takes the chunks of a value out.
    fn take(&mut self, value: u32) -> ChunkList
        ensures taken { result ≡ chunks_at self.old value }
        ensures others { (other : ℕ) → other ≢ value → chunks_at self.new other ≡ chunks_at self.old other }
    {
        let chunks = self.values.remove(&value);
        or_none(self.alloc, chunks)
    }

    // Puts the chunks of a value in.
    fn put(&mut self, value: u32, chunks: ChunkList) -> Result<(), AllocError>
        ensures put { OnOk result (chunks_at self.new value ≡ chunks) }
        ensures others { OnOk result ((other : ℕ) → other ≢ value → chunks_at self.new other ≡ chunks_at self.old other) }
    {
        self.values.insert(value, chunks)?;
        Ok(())
    }

    // Adds a chunk behind those of its value.
    fn add(&mut self, chunk: Chunk) -> Result<(), AllocError>
        ensures added { OnOk result (chunks_at self.new chunk.value ≡ chunks_at self.old chunk.value ++ chunk ∷ []) }
        ensures others { OnOk result ((other : ℕ) → other ≢ chunk.value → chunks_at self.new other ≡ chunks_at self.old other) }
    {
        let value = chunk.value;
        let mut chunks = self.take(value);
        chunks.push(chunk)?;
        self.put(value, chunks)
    }
}

fn or_none(alloc: Global, chunks: Option<ChunkList>) -> ChunkList
    ensures { result ≡ unwrap_or chunks [] }
{
    match chunks {
        Some(chunks) => chunks,
        None => ChunkList::new(alloc),
    }
}

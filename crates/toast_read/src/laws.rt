ghost use Rattle.std.specs.Prelude.{◌≡◌, List};
ghost use Rattle.std.specs.FinMap as map;
ghost use Rattle.std.specs.Ordering.{nat_cmp};
ghost use Rattle.heap_tuple.specs.declared.field.ToastPointer.{ToastPointer};
ghost use Rattle.toast_read.specs.declared.chunk.Chunk.{Chunk};
ghost use Rattle.toast_read.specs.Chunks.{fetched};
ghost use Rattle.toast_read.specs.Index.{IsIndexOf, fetched_from};

/// A law of the definition `fetched`: a pointer leads to the same in an index of some chunks as among the chunks
/// themselves, in the order in which they came.
pub fn index_law()
    ensures { (index : map.FinMap nat_cmp (List Chunk)) (chunks : List Chunk) (to : ToastPointer) →
        IsIndexOf index chunks → fetched_from index to ≡ fetched chunks to }
{}

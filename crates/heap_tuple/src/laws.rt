ghost use Rattle.std.specs.Prelude.{◌≡◌, false, ℕ, ◌%◌, ◌+◌, ◌^◌, ◌<◌, ◌≤◌, List, ◌++◌, Ok, Some, length, slice_get};
ghost use Rattle.heap_tuple.specs.declared.shape.Align.{Align};
ghost use Rattle.heap_tuple.specs.declared.shape.Shape.{Shape};
ghost use Rattle.heap_tuple.specs.declared.field.ToastPointer.{ToastPointer};
ghost use Rattle.heap_tuple.specs.Field.{FieldValue, bytes, compressed, pointer};
ghost use Rattle.heap_tuple.specs.Column.{align_bytes, data_of, field_at, field_in, is_null, raised, stored_field};
ghost use Rattle.heap_tuple.specs.Written.{fixed, long_bytes, padding, pointer_bytes, short_bytes, varlena};
ghost use Rattle.heap_tuple.specs.Extent.{field_start, LiesIn};
ghost use Rattle.heap_tuple.specs.Cursor.{fields_of};

use crate::layout::{
    ATTRIBUTES_MASK, CID_AT, COMPRESSED_HEADER_SIZE, CTID_BLOCK_AT, CTID_LINE_AT, EXCL_LOCK,
    EXTERNAL_METHOD_SHIFT, EXTERNAL_SIZE_MASK, HASEXTERNAL, HASNULL, HASVARWIDTH, HEADER_SIZE,
    HOFF_AT, INFOMASK_AT, INFOMASK2_AT, KEYSHR_LOCK, LOCK_ONLY, LONG_HEADER_SIZE, POINTER_HEADER,
    POINTER_SIZE, POINTER_TAG, XMAX_AT, XMAX_COMMITTED, XMAX_INVALID, XMAX_IS_MULTI, XMIN_AT,
    XMIN_COMMITTED, XMIN_INVALID,
};

/// The constants that the definitions cite are the format's numbers.
pub fn layout_law()
    ensures header { (HEADER_SIZE ≡ 23) × (XMIN_AT ≡ 0) × (XMAX_AT ≡ 4) × (CID_AT ≡ 8) × (CTID_BLOCK_AT ≡ 12) × (CTID_LINE_AT ≡ 16) × (INFOMASK2_AT ≡ 18) × (INFOMASK_AT ≡ 20) × (HOFF_AT ≡ 22) × (ATTRIBUTES_MASK ≡ 2047) }
    ensures fields { (HASNULL ≡ 1) × (HASVARWIDTH ≡ 2) × (HASEXTERNAL ≡ 4) }
    ensures locks { (KEYSHR_LOCK ≡ 16) × (EXCL_LOCK ≡ 64) × (LOCK_ONLY ≡ 128) }
    ensures hints { (XMIN_COMMITTED ≡ 256) × (XMIN_INVALID ≡ 512) × (XMAX_COMMITTED ≡ 1024) × (XMAX_INVALID ≡ 2048) × (XMAX_IS_MULTI ≡ 4096) }
    ensures varlena { (POINTER_HEADER ≡ 1) × (POINTER_TAG ≡ 18) × (POINTER_SIZE ≡ 18) × (LONG_HEADER_SIZE ≡ 4) × (COMPRESSED_HEADER_SIZE ≡ 8) × (EXTERNAL_SIZE_MASK ≡ 1073741823) × (EXTERNAL_METHOD_SHIFT ≡ 30) }
{}

/// A law of the definition `raised`: it is the least multiple of the alignment's bytes that isn't
/// below the place.
pub fn alignment_law()
    ensures multiple { (place : ℕ) (align : Align) → raised place align % align_bytes align ≡ 0 }
    ensures not_below { (place : ℕ) (align : Align) → place ≤ raised place align }
    ensures least { (place : ℕ) (align : Align) → raised place align < place + align_bytes align }
{}

/// A law of the definition `stored_field`: the fields of a tuple stand one after the other within
/// its data, and each value is a part of its own field.
pub fn fields_law()
    ensures within { (tuple : List ℕ) (columns : List Shape) (n : ℕ) →
        (start : ℕ) (field : FieldValue × ℕ) → field_start tuple columns n ≡ Ok start →
        stored_field tuple columns n ≡ Ok field → LiesIn (data_of tuple) start field }
    ensures apart { (tuple : List ℕ) (columns : List Shape) (n later : ℕ) →
        (start : ℕ) (field : FieldValue × ℕ) → n < later → is_null tuple n ≡ false →
        stored_field tuple columns n ≡ Ok field →
        field_start tuple columns later ≡ Ok start → field.1 ≤ start }
{}

/// A law of the definition `fields_of`: it has one answer for each column, `field_at` of it.
pub fn columns_law()
    ensures all { (tuple : List ℕ) (columns : List Shape) →
        length (fields_of tuple columns) ≡ length columns }
    ensures each { (tuple : List ℕ) (columns : List Shape) (n : ℕ) → n < length columns →
        slice_get (fields_of tuple columns) n ≡ Some (field_at tuple columns n) }
{}

/// A law of the definition `field_in`: what PostgreSQL writes as a field, behind any bytes and in
/// front of any, is read as that field, and its end is found.
pub fn written_law()
    ensures fixed { (before value rest : List ℕ) (align : Align) →
        field_in (before ++ padding (length before) align ++ value ++ rest)
        (fixed (length value) align) (length before)
        ≡ Ok (bytes value, raised (length before) align + length value) }
    ensures short { (before value rest : List ℕ) (align : Align) →
        field_in (before ++ short_bytes value ++ rest) (varlena align) (length before)
        ≡ Ok (bytes value, length before + (length value + 1)) }
    ensures long { (before value rest : List ℕ) (align : Align) → length value + 4 < 2 ^ 30 →
        field_in (before ++ padding (length before) align ++ long_bytes 0 value ++ rest)
        (varlena align) (length before)
        ≡ Ok (bytes value, raised (length before) align + (length value + 4)) }
    ensures compressed { (before value rest : List ℕ) (align : Align) → 4 ≤ length value →
        length value + 4 < 2 ^ 30 →
        field_in (before ++ padding (length before) align ++ long_bytes 2 value ++ rest)
        (varlena align) (length before)
        ≡ Ok (compressed value, raised (length before) align + (length value + 4)) }
    ensures pointer { (before rest : List ℕ) (align : Align) (to : ToastPointer) →
        to.rawsize < 2 ^ 32 → to.size < 2 ^ 30 → to.method < 4 →
        to.value < 2 ^ 32 → to.relation < 2 ^ 32 →
        field_in (before ++ pointer_bytes to ++ rest) (varlena align) (length before)
        ≡ Ok (pointer to, length before + 18) }
{}

ghost use Rattle.std.specs.Prelude.{◌≡◌, ◌+◌, ◌^◌, ◌<◌, ◌≤◌, length, slice_index, IfOk};
ghost use Rattle.heap_tuple.specs.Field.{bytes, compressed};
ghost use Rattle.heap_tuple.specs.Column.{field_in, fixed_field, long_field, pointer_field, raised, short_field, start_of, varlena_field};
ghost use Rattle.heap_tuple.specs.Stored.{long_value, stored_value};

use crate::error::TupleError;
use crate::field::{Field, ToastPointer};
use crate::layout::{
    COMPRESSED_HEADER_SIZE, EXTERNAL_METHOD_SHIFT, EXTERNAL_SIZE_MASK, LONG_HEADER_SIZE,
    POINTER_HEADER, POINTER_SIZE, POINTER_TAG,
};
use crate::numbers::u32_at;
use crate::shape::{Align, Shape};

// A field that stands in the data of a tuple, and the place behind it.
#[derive(Clone, Copy)]
pub(crate) struct Stored<'a> {
    pub(crate) field: Field<'a>,
    pub(crate) end: usize,
}

// The field of a column of this shape, where the field before it ends at `place`.
#[tactic(auto, unfolding(crate::specs::Column::field_in))]
pub(crate) fn stored_field(
    area: &[u8],
    shape: Shape,
    place: usize,
) -> Result<Stored<'_>, TupleError>
    requires { place ≤ length area.now }
    ensures value { stored_value result ≡ field_in area.now shape place }
    ensures within { IfOk result (λ stored. stored.end ≤ length area.now) }
{
    let start = start_of(area, shape, place);
    match usize::try_from(shape.length) {
        Ok(size) => fixed_field(area, size, start),
        Err(_) => varlena_field(area, start),
    }
}

// Where that field begins.
fn start_of(area: &[u8], shape: Shape, place: usize) -> usize
    requires { place ≤ length area.now }
    ensures value { result ≡ start_of area.now shape place }
    ensures near { result ≤ place + 7 }
{
    let unaligned = shape.length < 0 && area.get(place).is_some_and(|byte| *byte != 0);
    if unaligned {
        place
    } else {
        raised(place, shape.align)
    }
}

// The least multiple of the alignment's bytes that isn't below the place.
fn raised(place: usize, align: Align) -> usize
    requires { place < 2 ^ 63 }
    ensures value { result ≡ raised place align }
    ensures near { result ≤ place + 7 }
{
    match align {
        Align::C => place,
        Align::S => (place + 1) / 2 * 2,
        Align::I => (place + 3) / 4 * 4,
        Align::D => (place + 7) / 8 * 8,
    }
}

// A field of so many bytes.
fn fixed_field(area: &[u8], size: usize, start: usize) -> Result<Stored<'_>, TupleError>
    requires size { size < 2 ^ 15 }
    requires start { start ≤ length area.now + 7 }
    ensures value { stored_value result ≡ fixed_field area.now size start }
    ensures within { IfOk result (λ stored. stored.end ≤ length area.now) }
{
    let end = start + size;
    if end > area.len() {
        return Err(TupleError::Short);
    }
    let field = Field::Bytes(&area[start..end]);
    Ok(Stored { field, end })
}

// A field whose header says its length.
#[tactic(auto, unfolding(crate::specs::Column::varlena_field))]
fn varlena_field(area: &[u8], start: usize) -> Result<Stored<'_>, TupleError>
    requires { start ≤ length area.now + 7 }
    ensures value { stored_value result ≡ varlena_field area.now start }
    ensures within { IfOk result (λ stored. stored.end ≤ length area.now) }
{
    if start >= area.len() {
        return Err(TupleError::Short);
    }
    let first = area[start];
    if first == POINTER_HEADER {
        pointer_field(area, start)
    } else if first % 2 == 1 {
        short_field(area, start)
    } else if first % 4 == 0 {
        let (part, end) = long_part(area, start, LONG_HEADER_SIZE)?;
        let field = Field::Bytes(part);
        Ok(Stored { field, end })
    } else {
        let (part, end) = long_part(area, start, COMPRESSED_HEADER_SIZE)?;
        let field = Field::Compressed(part);
        Ok(Stored { field, end })
    }
}

// A pointer to a value stored elsewhere.
fn pointer_field(area: &[u8], start: usize) -> Result<Stored<'_>, TupleError>
    requires { start < length area.now }
    ensures value { stored_value result ≡ pointer_field area.now start }
    ensures within { IfOk result (λ stored. stored.end ≤ length area.now) }
{
    if start + 2 > area.len() {
        return Err(TupleError::Short);
    }
    if area[start + 1] != POINTER_TAG {
        return Err(TupleError::BadLength);
    }
    let end = start + POINTER_SIZE;
    if end > area.len() {
        return Err(TupleError::Short);
    }
    let extinfo = u32_at(area, start + 6);
    let field = Field::Pointer(ToastPointer {
        rawsize: u32_at(area, start + 2),
        size: extinfo & EXTERNAL_SIZE_MASK,
        method: (extinfo >> EXTERNAL_METHOD_SHIFT) as u8,
        value: u32_at(area, start + 10),
        relation: u32_at(area, start + 14),
    });
    Ok(Stored { field, end })
}

// A field behind a header of one byte.
fn short_field(area: &[u8], start: usize) -> Result<Stored<'_>, TupleError>
    requires start { start < length area.now }
    requires length { 2 ≤ slice_index area.now start }
    ensures value { stored_value result ≡ short_field area.now start }
    ensures within { IfOk result (λ stored. stored.end ≤ length area.now) }
{
    let end = start + (area[start] >> 1) as usize;
    if end > area.len() {
        return Err(TupleError::Short);
    }
    let field = Field::Bytes(&area[start + 1..end]);
    Ok(Stored { field, end })
}

// What follows a header of four bytes, which says at least the length `least`, and the place behind
// it.
fn long_part(area: &[u8], start: usize, least: usize) -> Result<(&[u8], usize), TupleError>
    requires start { start < length area.now }
    requires least { LONG_HEADER_SIZE ≤ least }
    ensures bytes { long_value bytes result ≡ long_field bytes least area.now start }
    ensures compressed { long_value compressed result ≡ long_field compressed least area.now start }
    ensures within { IfOk result (λ part. part.1 ≤ length area.now) }
{
    if start + LONG_HEADER_SIZE > area.len() {
        return Err(TupleError::Short);
    }
    let length = (u32_at(area, start) >> 2) as usize;
    if length < least {
        return Err(TupleError::BadLength);
    }
    let end = start + length;
    if end > area.len() {
        return Err(TupleError::Short);
    }
    Ok((&area[start + LONG_HEADER_SIZE..end], end))
}

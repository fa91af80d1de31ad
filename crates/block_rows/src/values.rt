// The values of a tuple.
ghost use Rattle.std.specs.Prelude.{◌≡◌, ◌<◌, ◌≤◌, ◌+◌, ◌*◌, ◌^◌, ℕ, List, length, Ok, Err, IfOk, IfErr, slice_get, Some, OnOk, ◌++◌, [], cond};
ghost use Rattle.std.specs.List.{cons_option};
ghost use Rattle.heap_tuple.specs.Column.{field_at};
ghost use Rattle.std.specs.Prelude.{slice_index};
ghost use Rattle.std.specs.Option.{option_copied};
ghost use Rattle.std.specs.List.{find};
ghost use Rattle.heap_tuple.specs.Numbers.{u32_at};
ghost use Rattle.catalog.specs.Spaces.{enum_has};
ghost use Rattle.heap_tuple.specs.Field.{field_value as field_of, answer_value};
ghost use Rattle.heap_tuple.specs.Header.{header_of};
ghost use Rattle.heap_tuple.specs.Cursor.{fields_of};
ghost use Rattle.cluster_meaning.specs.Values.{values_of, missing_value, label_has, labels_in, enum_value, plain_value, pointer_value, field_value, column_read, unless_dropped};
ghost use Rattle.byteorder.specs.Endian.{little_bytes};
ghost use Rattle.heap_tuple.specs.Written.{pointer_bytes};
ghost use Rattle.block_rows.specs.Sources.{source_of, FieldsLeft};
ghost use Rattle.heap_tuple.specs.declared.shape.Shape.{Shape};

use crate::rows::Values;
use crate::source::Source;
use catalog::{Column, ColumnKind, Database, Label};
use cluster_meaning::Value;
use fs_model::Bytes;
use heap_tuple::{
    Columns, EXTERNAL_METHOD_SHIFT, Field, POINTER_HEADER, POINTER_TAG, Shape, ToastPointer,
    TupleError,
};
use std::alloc::{AllocError, Global};
use toast_read::ToastError;

fn copied(alloc: Global, part: &[u8]) -> Result<Bytes, AllocError>
    ensures { IfOk result (λ bytes. bytes ≡ part.now) }
{
    Ok(Bytes::new(Vec::from_slice(alloc, part)?))
}

// A byte, or 0 behind the end.
fn byte_at(part: &[u8], n: usize) -> u8
    ensures { result ≡ slice_index part.now n }
{
    match part.get(n) {
        Some(byte) => *byte,
        None => 0,
    }
}

// The number of four bytes; those that are missing are zeros.
#[tactic(auto, unfolding(heap_tuple::specs::Numbers::u32_at))]
pub(crate) fn number_in(part: &[u8]) -> u32
    ensures { result ≡ u32_at part.now 0 }
{
    let high = byte_at(part, 2) as u32 + 256 * byte_at(part, 3) as u32;
    byte_at(part, 0) as u32 + 256 * (byte_at(part, 1) as u32 + 256 * high)
}

// The value of the rows that were written before the column was added.
fn missing_value(alloc: Global, column: &Column) -> Result<Value, AllocError>
    ensures { IfOk result (λ value. value ≡ missing_value column.now.missing) }
{
    match &column.missing {
        Some(bytes) => Ok(Value::Bytes(bytes.clone()?)),
        None => Ok(Value::Null),
    }
}

fn label_in(labels: &[Label], oid: u32) -> Option<&Label>
    ensures { option_copied result ≡ find (label_has oid) labels.now }
{
    labels.iter().find(|label| label.oid == oid)
}

fn labels_of(database: &Database, kind: u32) -> &[Label]
    ensures { result.now ≡ labels_in (find (enum_has kind) database.now.enums) }
{
    match database.enum_type(kind) {
        Some(kind) => kind.labels.items(),
        None => &[],
    }
}

// The label that a field of an enum names.
fn enum_value(
    alloc: Global,
    database: &Database,
    kind: u32,
    part: &[u8],
) -> Result<Value, AllocError>
    ensures { IfOk result (λ value. value ≡ enum_value database.now.enums kind part.now) }
{
    match label_in(labels_of(database, kind), number_in(part)) {
        Some(label) => Ok(Value::Label(label.text.clone()?)),
        None => Ok(Value::Broken(copied(alloc, part)?)),
    }
}

fn plain_value(
    alloc: Global,
    database: &Database,
    kind: ColumnKind,
    part: &[u8],
) -> Result<Value, AllocError>
    ensures { IfOk result (λ value. value ≡ plain_value database.now.enums kind part.now) }
{
    match kind {
        ColumnKind::Base(_) => Ok(Value::Bytes(copied(alloc, part)?)),
        ColumnKind::Enum(oid) => enum_value(alloc, database, oid, part),
        ColumnKind::Dropped { .. } => Ok(Value::Bytes(copied(alloc, part)?)),
    }
}

// The size of a pointer's value with the compression method in the two high bits, `va_extinfo`.
fn extinfo_of(to: &ToastPointer) -> [u8; 4]
    ensures { result ≡ little_bytes 4 (to.now.size + 2 ^ 30 * to.now.method) }
{
    let method = (to.method as u32).wrapping_mul(1 << EXTERNAL_METHOD_SHIFT);
    let extinfo = to.size.wrapping_add(method);
    extinfo.to_le_bytes()
}

// The bytes of a pointer.
fn pointer_bytes(alloc: Global, to: &ToastPointer) -> Result<Bytes, AllocError>
    ensures { IfOk result (λ part. part ≡ pointer_bytes to.now) }
{
    let mut bytes = Vec::new(alloc);
    bytes.push(POINTER_HEADER)?;
    bytes.push(POINTER_TAG)?;
    bytes.extend_from_slice(&to.rawsize.to_le_bytes())?;
    bytes.extend_from_slice(&extinfo_of(to))?;
    bytes.extend_from_slice(&to.value.to_le_bytes())?;
    bytes.extend_from_slice(&to.relation.to_le_bytes())?;
    Ok(Bytes::new(bytes))
}

// What a pointer leads to.
fn pointer_value(alloc: Global, source: &Source, to: &ToastPointer) -> Result<Value, AllocError>
    ensures { IfOk result (λ value. value ≡ pointer_value (source_of source.now) to.now) }
{
    if source.toast != Some(to.relation) {
        return Ok(Value::Broken(pointer_bytes(alloc, to)?));
    }
    match source.index.fetch(to) {
        Ok(bytes) => Ok(Value::Bytes(Bytes::new(bytes))),
        Err(ToastError::OutOfMemory) => Err(AllocError),
        Err(_) => Ok(Value::Broken(pointer_bytes(alloc, to)?)),
    }
}

// The value of a field.
fn value_of(
    alloc: Global,
    source: &Source,
    tuple: &[u8],
    column: &Column,
    field: Field,
) -> Result<Value, AllocError>
    ensures { IfOk result (λ value. value ≡ field_value (source_of source.now) tuple.now column.now (Ok (field_of field.entry))) }
{
    match field {
        Field::Null => Ok(Value::Null),
        Field::Missing => missing_value(alloc, column),
        Field::Bytes(part) => plain_value(alloc, source.database, column.kind, part),
        Field::Compressed(part) => Ok(Value::Compressed(copied(alloc, part)?)),
        Field::Pointer(to) => pointer_value(alloc, source, &to),
    }
}

// The value of a column, if it wasn't dropped.
fn column_value(
    alloc: Global,
    source: &Source,
    tuple: &[u8],
    column: &Column,
    field: Field,
) -> Result<Option<Value>, AllocError>
    ensures { IfOk result (λ value. value ≡ unless_dropped column.now.kind (field_value (source_of source.now) tuple.now column.now (Ok (field_of field.entry)))) }
{
    match column.kind {
        ColumnKind::Base(_) => Ok(Some(value_of(alloc, source, tuple, column, field)?)),
        ColumnKind::Enum(_) => Ok(Some(value_of(alloc, source, tuple, column, field)?)),
        ColumnKind::Dropped { .. } => Ok(None),
    }
}

// The value of a column that can't be read, if it wasn't dropped.
fn broken_value(alloc: Global, tuple: &[u8], column: &Column) -> Result<Option<Value>, AllocError>
    ensures { IfOk result (λ value. value ≡ unless_dropped column.now.kind (Value.Broken tuple.now)) }
{
    match column.kind {
        ColumnKind::Base(_) => Ok(Some(Value::Broken(copied(alloc, tuple)?))),
        ColumnKind::Enum(_) => Ok(Some(Value::Broken(copied(alloc, tuple)?))),
        ColumnKind::Dropped {
            length: _,
            align: _,
        } => Ok(None),
    }
}

// The value of a column of which this was read, if it wasn't dropped.
fn column_read(
    alloc: Global,
    source: &Source,
    tuple: &[u8],
    n: usize,
    field: Result<Field, TupleError>,
) -> Result<Option<Value>, AllocError>
    ensures { IfOk result (λ value. value ≡ column_read (source_of source.now) tuple.now (answer_value field.entry) (slice_get source.now.columns.now n)) }
{
    let Some(column) = source.columns.get(n) else {
        return Ok(None);
    };
    match field {
        Ok(field) => column_value(alloc, source, tuple, column, field),
        Err(_) => broken_value(alloc, tuple, column),
    }
}

fn push_some(values: &mut Vec<Value>, value: Option<Value>) -> Result<(), AllocError>
    ensures { OnOk result (values.new.items ≡ values.old.items ++ cons_option value []) }
{
    if let Some(value) = value {
        values.push(value)?;
    }
    Ok(())
}

/// The values of a tuple, one for each column that wasn't dropped.
#[tactic(auto, unfolding(cluster_meaning::specs::Values::values_of), using(crate::proofs::FieldSteps::filtered_next, crate::proofs::FieldSteps::put_first))]
pub(crate) fn read_values(
    alloc: Global,
    source: &Source,
    tuple: &[u8],
) -> Result<Values, AllocError>
    requires { length source.now.shapes.now ≡ length source.now.columns.now }
    ensures { IfOk result (λ values. values ≡ values_of (source_of source.now) tuple.now) }
{
    let mut fields = Columns::over(tuple, source.shapes);
    let mut values = Vec::new(alloc);
    for n in 0..source.columns.len() {
        let field = next_field(&mut fields);
        let value = column_read(alloc, source, tuple, n, field)?;
        push_some(&mut values, value)?;
    }
    Ok(Values::new(values))
}

// What was read of the next column; the header's error where that can't be read.
fn next_field<'a>(fields: &mut Result<Columns<'a, '_>, TupleError>) -> Result<Field<'a>, TupleError>
    ensures { (tuple : List ℕ) (shapes : List Shape) (n : ℕ) → n < length shapes → FieldsLeft tuple shapes n fields.old
        → (answer_value result ≡ field_at tuple shapes n) × FieldsLeft tuple shapes (n + 1) fields.new }
{
    match fields {
        Ok(fields) => match fields.next() {
            Some(field) => field,
            None => Err(TupleError::Short),
        },
        Err(error) => Err(*error),
    }
}

// The columns of a statement, packed.
ghost use Rattle.std.specs.Prelude.{◌≡◌, ◌+◌, ◌-◌, ◌^◌, ◌<◌, ◌≤◌, ◌++◌, ◌∷◌, [], length, get_or, IfOk, OnOk};
ghost use Rattle.csv.specs.Records.{fields_of, partial_of};
ghost use Rattle.dump_grammar.specs.Packed.{text_at, text_count, missing_count, kind_at, missing_at, column_at, end_of, kind_texts, texts_of, packed_kind, packed_as};

use crate::columns::{ColumnText, NamedKind};
use catalog::BaseType;
use csv::ByteRecord;
use fs_model::{Bytes, Text};
use heap_tuple::Align;
use std::alloc::{AllocError, Global};
use std::marker::Model;

// What a column holds, but for its texts.
#[derive(Clone, Copy)]
pub(crate) enum PackedKind {
    Base(BaseType),
    Enum,
    Dropped { length: i16, align: Align },
}

// A column, but for its texts: its name, then the schema and the name of its enum, then its missing value.
#[derive(Clone, Copy)]
pub(crate) struct Packed {
    // The place of its name among the texts.
    pub first: usize,
    pub kind: PackedKind,
    pub has_missing: bool,
}

/// The columns of a table, in order. A contract sees them as a list. The grammar doesn't bound how many a statement has,
/// so they are packed: all texts lie in one buffer, and a column takes some thirty bytes beside its own.
#[derive(Drop)]
pub struct ColumnTexts {
    texts: ByteRecord,
    packed: Vec<Packed>,
}

impl Model for ColumnTexts {
    ghost use Rattle.std.specs.Prelude.{◌≡◌, List, [], true, length, map};
    ghost use Rattle.std.specs.List.{list_all};
    ghost use Rattle.csv.specs.Records.{fields_of, partial_of};
    ghost use Rattle.dump_grammar.specs.declared.columns.ColumnText.{ColumnText};
    ghost use Rattle.dump_grammar.specs.Packed.{column_at, ends_by};

    ghost Value = { List ColumnText };

    ghost view = { λ a. map (column_at (fields_of a.texts)) a.packed.items };

    ghost invariant = { λ a. (partial_of a.texts ≡ []) × (list_all (ends_by (length (fields_of a.texts))) a.packed.items ≡ true) };
}

fn packed_kind(kind: &NamedKind) -> PackedKind
    ensures { result ≡ packed_kind kind.now }
{
    match kind {
        NamedKind::Base(base) => PackedKind::Base(*base),
        NamedKind::Enum(_, _) => PackedKind::Enum,
        NamedKind::Dropped { length, align } => PackedKind::Dropped {
            length: *length,
            align: *align,
        },
    }
}

// A column whose texts begin at a place.
fn packed_as(place: usize, column: &ColumnText) -> Packed
    ensures { result ≡ packed_as place column.now }
{
    Packed {
        first: place,
        kind: packed_kind(&column.kind),
        has_missing: column.missing.is_some(),
    }
}

// Adds the texts that the kind of a column has.
fn add_kind(texts: &mut ByteRecord, kind: &NamedKind) -> Result<(), AllocError>
    requires { partial_of texts.old ≡ [] }
    ensures fields { OnOk result (fields_of texts.new ≡ fields_of texts.old ++ kind_texts kind.now) }
    ensures partial { OnOk result (partial_of texts.new ≡ []) }
{
    if let NamedKind::Enum(schema, name) = kind {
        texts.push_field(schema.bytes())?;
        texts.push_field(name.bytes())?;
    }
    Ok(())
}

// The texts with those of a column behind them.
fn with_texts(texts: ByteRecord, column: &ColumnText) -> Result<ByteRecord, AllocError>
    requires { partial_of texts ≡ [] }
    ensures fields { IfOk result (λ more. fields_of more ≡ fields_of texts ++ texts_of column.now) }
    ensures partial { IfOk result (λ more. partial_of more ≡ []) }
{
    let mut more = texts;
    more.push_field(column.name.bytes())?;
    add_kind(&mut more, &column.kind)?;
    if let Some(missing) = &column.missing {
        more.push_field(missing.bytes())?;
    }
    Ok(more)
}

// A copy of the text at a place.
#[tactic(auto, using(crate::proofs::PackedLemmas::field_there, crate::proofs::PackedLemmas::field_stands))]
fn text_at(alloc: Global, texts: &ByteRecord, place: usize) -> Result<Vec<u8>, AllocError>
    requires { place < length (fields_of texts.now) }
    ensures text { IfOk result (λ text. text.items ≡ text_at (fields_of texts.now) place) }
    ensures next { OnOk result (place < 2 ^ 64 - 1) }
{
    match texts.get(place) {
        Some(text) => text.to_vec(alloc),
        None => Ok(Vec::new(alloc)),
    }
}

// How many texts a column of that kind has between its name and its missing value.
fn text_count(kind: PackedKind) -> usize
    ensures { result ≡ text_count kind }
{
    match kind {
        PackedKind::Enum => 2,
        _ => 0,
    }
}

// The kind of a column, whose texts begin at a place.
fn kind_at(
    alloc: Global,
    texts: &ByteRecord,
    place: usize,
    kind: PackedKind,
) -> Result<NamedKind, AllocError>
    requires { place + text_count kind ≤ length (fields_of texts.now) }
    ensures kind { IfOk result (λ named. named ≡ kind_at (fields_of texts.now) place kind) }
    ensures next { OnOk result (place + text_count kind ≤ 2 ^ 64 - 1) }
{
    Ok(match kind {
        PackedKind::Base(base) => NamedKind::Base(base),
        PackedKind::Enum => {
            let schema = text_at(alloc, texts, place)?;
            let name = text_at(alloc, texts, place + 1)?;
            NamedKind::Enum(Text::new(schema), Text::new(name))
        }
        PackedKind::Dropped { length, align } => NamedKind::Dropped { length, align },
    })
}

// The missing value of a column, where it has one.
fn missing_at(
    alloc: Global,
    texts: &ByteRecord,
    place: usize,
    has_missing: bool,
) -> Result<Option<Bytes>, AllocError>
    requires { place + missing_count has_missing ≤ length (fields_of texts.now) }
    ensures { IfOk result (λ missing. missing ≡ missing_at (fields_of texts.now) place has_missing) }
{
    if !has_missing {
        return Ok(None);
    }
    Ok(Some(Bytes::new(text_at(alloc, texts, place)?)))
}

// A column as it was before it was packed.
fn column_at(alloc: Global, texts: &ByteRecord, packed: Packed) -> Result<ColumnText, AllocError>
    requires { end_of packed ≤ length (fields_of texts.now) }
    ensures { IfOk result (λ column. column ≡ column_at (fields_of texts.now) packed) }
{
    let name = text_at(alloc, texts, packed.first)?;
    let kind = kind_at(alloc, texts, packed.first + 1, packed.kind)?;
    let place = packed.first + 1 + text_count(packed.kind);
    let missing = missing_at(alloc, texts, place, packed.has_missing)?;
    Ok(ColumnText {
        name: Text::new(name),
        kind,
        missing,
    })
}

impl ColumnTexts {
    /// No column.
    pub fn new(alloc: Global) -> ColumnTexts
        ensures { result ≡ [] }
    {
        ColumnTexts {
            texts: ByteRecord::new(alloc),
            packed: Vec::new(alloc),
        }
    }

    /// How many columns there are.
    pub fn len(&self) -> usize
        ensures { result ≡ length self.now }
    {
        self.packed.len()
    }

    /// The columns with one more behind them.
    pub fn with(self, column: ColumnText) -> Result<ColumnTexts, AllocError>
        ensures { IfOk result (λ columns. columns ≡ self ++ column ∷ []) }
    {
        let last = packed_as(self.texts.len(), &column);
        let texts = with_texts(self.texts, &column)?;
        let mut packed = self.packed;
        packed.push(last)?;
        Ok(ColumnTexts { texts, packed })
    }

    /// A column, counted from 0.
    pub fn column(&self, alloc: Global, index: usize) -> Result<ColumnText, AllocError>
        requires { index < length self.now }
        ensures { IfOk result (λ column. column ≡ get_or self.now index column) }
    {
        column_at(alloc, &self.texts, self.packed[index])
    }
}

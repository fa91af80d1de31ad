// The columns of a table, and the keys of an index: lists in parentheses, up to the end of their line.
ghost use Rattle.std.specs.Prelude.{◌≡◌, ◌++◌, [], None, true, OnOk, codes};
ghost use Rattle.std.specs.Fmt.{decimal};
ghost use Rattle.std.specs.List.{list_all};
ghost use Rattle.dump_lex.specs.Written.{are_bytes};
ghost use Rattle.dump_grammar.specs.declared.columns.NamedKind.TheVariants as named;
ghost use Rattle.dump_grammar.specs.Spelling.{is_written_missing};
ghost use Rattle.dump_grammar.specs.Canonical.{kind_text, is_byte_column};
ghost use Rattle.dump_print.specs.Parts.{missing_text, length_text, column_text_of, written_column, more_text, list_text};
ghost use Rattle.catalog.specs.declared.types.ColumnKind.TheVariants as columns;

use crate::parts::{put_enum_place, put_number};
use catalog::{BaseType, Column, ColumnKind, Database};
use dump_grammar::{align_word, type_word};
use dump_lex::{put_hex, put_name};
use fs_model::Bytes;
use heap_tuple::Align;
use itoa::Buffer;
use std::alloc::AllocError;

// ---- missing values

// Does nothing: its clause says that a slice of bytes holds bytes.
#[tactic(auto, using(crate::proofs::Bytes::are_bytes))]
fn know_bytes(bytes: &[u8])
    ensures { are_bytes bytes.now ≡ true }
{
    let _ = bytes;
}

// Does nothing: its clause says that a missing value is made of bytes.
fn know_missing(missing: &Option<Bytes>)
    ensures { is_written_missing missing.now ≡ true }
{
    match missing {
        None => (),
        Some(bytes) => know_bytes(bytes.bytes()),
    }
}

fn put_missing(out: &mut Vec<u8>, missing: &Option<Bytes>) -> Result<(), AllocError>
    ensures { OnOk result (out.new.items ≡ out.old.items ++ missing_text missing.now) }
{
    match missing {
        None => Ok(()),
        Some(bytes) => {
            out.extend_from_slice(b" MISSING ")?;
            put_hex(out, bytes.bytes())
        }
    }
}

// ---- one column

fn put_base_column(
    out: &mut Vec<u8>,
    name: &[u8],
    base: BaseType,
    missing: &Option<Bytes>,
) -> Result<(), AllocError>
    ensures { OnOk result (out.new.items ≡ out.old.items ++ column_text_of name.now missing.now (named.Base base)) }
{
    put_name(out, name)?;
    out.extend_from_slice(b" ")?;
    out.extend_from_slice(type_word(base))?;
    put_missing(out, missing)
}

fn put_enum_column(
    out: &mut Vec<u8>,
    database: &Database,
    name: &[u8],
    oid: u32,
    missing: &Option<Bytes>,
) -> Result<(), AllocError>
    ensures { OnOk result (out.new.items ≡ out.old.items ++ column_text_of name.now missing.now (kind_text database.now.enums (columns.Enum oid))) }
{
    put_name(out, name)?;
    out.extend_from_slice(b" ENUM ")?;
    put_enum_place(out, database, oid)?;
    put_missing(out, missing)
}

fn put_length(out: &mut Vec<u8>, length: i16) -> Result<(), AllocError>
    ensures { OnOk result (out.new.items ≡ out.old.items ++ length_text length) }
{
    if length < 0 {
        return out.extend_from_slice(b"VAR");
    }
    let mut buffer = Buffer::new();
    out.extend_from_slice(buffer.format(length).as_bytes())
}

fn put_dropped_column(out: &mut Vec<u8>, length: i16, align: Align) -> Result<(), AllocError>
    ensures { OnOk result (out.new.items ≡ out.old.items ++ column_text_of [] None (named.Dropped length align)) }
{
    out.extend_from_slice(b"DROPPED ")?;
    put_length(out, length)?;
    out.extend_from_slice(b" ")?;
    out.extend_from_slice(align_word(align))
}

fn put_kind(out: &mut Vec<u8>, database: &Database, column: &Column) -> Result<(), AllocError>
    ensures { OnOk result (out.new.items ≡ out.old.items ++ written_column database.now.enums column.now) }
{
    match column.kind {
        ColumnKind::Base(base) => {
            put_base_column(out, column.name.bytes(), base, &column.missing)
        }
        ColumnKind::Enum(oid) => {
            put_enum_column(out, database, column.name.bytes(), oid, &column.missing)
        }
        ColumnKind::Dropped { length, align } => put_dropped_column(out, length, align),
    }
}

fn put_column(out: &mut Vec<u8>, database: &Database, column: &Column) -> Result<(), AllocError>
    ensures text { OnOk result (out.new.items ≡ out.old.items ++ written_column database.now.enums column.now) }
    ensures bytes { is_byte_column column.now ≡ true }
{
    know_missing(&column.missing);
    put_kind(out, database, column)
}

// ---- the columns

// What stands between two entries.
fn put_comma(out: &mut Vec<u8>) -> Result<(), AllocError>
    ensures { OnOk result (out.new.items ≡ out.old.items ++ codes ", ") }
{
    out.extend_from_slice(b", ")
}

fn put_more_columns(
    out: &mut Vec<u8>,
    database: &Database,
    columns: &[Column],
) -> Result<(), AllocError>
    ensures text { OnOk result (out.new.items ≡ out.old.items ++ more_text (written_column database.now.enums) columns.now) }
    ensures bytes { OnOk result (list_all is_byte_column columns.now ≡ true) }
{
    for column in columns {
        put_comma(out)?;
        put_column(out, database, column)?;
    }
    out.extend_from_slice(b");\n")
}

pub(crate) fn put_columns(
    out: &mut Vec<u8>,
    database: &Database,
    columns: &[Column],
) -> Result<(), AllocError>
    ensures text { OnOk result (out.new.items ≡ out.old.items ++ list_text (written_column database.now.enums) columns.now) }
    ensures bytes { OnOk result (list_all is_byte_column columns.now ≡ true) }
{
    match columns {
        [] => out.extend_from_slice(b");\n"),
        [first, more @ ..] => {
            put_column(out, database, first)?;
            put_more_columns(out, database, more)
        }
    }
}

// ---- the keys of an index

fn put_more_keys(out: &mut Vec<u8>, keys: &[u16]) -> Result<(), AllocError>
    ensures { OnOk result (out.new.items ≡ out.old.items ++ more_text decimal keys.now) }
{
    for key in keys {
        put_comma(out)?;
        put_number(out, u32::from(*key))?;
    }
    out.extend_from_slice(b");\n")
}

pub(crate) fn put_keys(out: &mut Vec<u8>, keys: &[u16]) -> Result<(), AllocError>
    ensures { OnOk result (out.new.items ≡ out.old.items ++ list_text decimal keys.now) }
{
    match keys {
        [] => out.extend_from_slice(b");\n"),
        [first, more @ ..] => {
            put_number(out, u32::from(*first))?;
            put_more_keys(out, more)
        }
    }
}

// The lines of one object of a database each.
ghost use Rattle.std.specs.Prelude.{◌≡◌, ◌++◌, ◌∷◌, [], true, Some, OnOk};
ghost use Rattle.std.specs.List.{flat_map};
ghost use Rattle.dump_grammar.specs.declared.statement.NextKind.TheVariants as kinds;
ghost use Rattle.dump_grammar.specs.declared.statement.Statement.TheVariants.{SetNext};
ghost use Rattle.dump_grammar.specs.Canonical.{schema_statements, label_statements, enum_statements, toast_statements, table_statements, index_statements, sequence_statements, is_byte_table};
ghost use Rattle.dump_print.specs.Parts.{lines_text, enum_line, table_numbers};

use crate::parts::role_name;
use crate::statements::{
    put_add_label, put_create_enum, put_create_schema, put_create_sequence, put_next,
};
use crate::tables::{put_create_index, put_create_table};
use catalog::{Catalog, Database, EnumType, Index, Label, Schema, Sequence, Table, Toast};
use dump_grammar::NextKind;
use std::alloc::AllocError;

pub(crate) fn put_schema(
    out: &mut Vec<u8>,
    catalog: &Catalog,
    schema: &Schema,
) -> Result<(), AllocError>
    ensures { OnOk result (out.new.items ≡ out.old.items ++ lines_text (schema_statements catalog.now.roles schema.now)) }
{
    put_create_schema(out, schema.name.bytes(), role_name(catalog, schema.owner))
}

// ---- enums

fn put_label(out: &mut Vec<u8>, kind: &EnumType, label: &Label) -> Result<(), AllocError>
    ensures { OnOk result (out.new.items ≡ out.old.items ++ lines_text (label_statements kind.now label.now)) }
{
    put_next(out, NextKind::Label, label.oid)?;
    put_add_label(
        out,
        kind.schema.bytes(),
        kind.name.bytes(),
        label.text.bytes(),
    )
}

fn put_labels(out: &mut Vec<u8>, kind: &EnumType) -> Result<(), AllocError>
    ensures { OnOk result (out.new.items ≡ out.old.items ++ lines_text (flat_map (label_statements kind.now) kind.now.labels)) }
{
    for label in kind.labels.items() {
        put_label(out, kind, label)?;
    }
    Ok(())
}

fn put_enum_line(out: &mut Vec<u8>, catalog: &Catalog, kind: &EnumType) -> Result<(), AllocError>
    ensures { OnOk result (out.new.items ≡ out.old.items ++ lines_text (enum_line catalog.now.roles kind.now)) }
{
    put_next(out, NextKind::TypeOid, kind.oid)?;
    let owner = role_name(catalog, kind.owner);
    put_create_enum(out, kind.schema.bytes(), kind.name.bytes(), owner)
}

pub(crate) fn put_enum(
    out: &mut Vec<u8>,
    catalog: &Catalog,
    kind: &EnumType,
) -> Result<(), AllocError>
    ensures { OnOk result (out.new.items ≡ out.old.items ++ lines_text (enum_statements catalog.now.roles kind.now)) }
{
    put_enum_line(out, catalog, kind)?;
    put_labels(out, kind)?;
    Ok(())
}

// ---- tables

fn put_table_numbers(out: &mut Vec<u8>, table: &Table) -> Result<(), AllocError>
    ensures { OnOk result (out.new.items ≡ out.old.items ++ lines_text (table_numbers table.now)) }
{
    put_next(out, NextKind::TypeOid, table.row_type)?;
    put_next(out, NextKind::Table, table.oid)?;
    put_next(out, NextKind::TableFile, table.file)
}

fn put_toast_numbers(out: &mut Vec<u8>, toast: Toast) -> Result<(), AllocError>
    ensures { OnOk result (out.new.items ≡ out.old.items ++ lines_text (toast_statements (Some toast))) }
{
    put_next(out, NextKind::Toast, toast.oid)?;
    put_next(out, NextKind::ToastFile, toast.file)?;
    put_next(out, NextKind::ToastIndex, toast.index_oid)?;
    put_next(out, NextKind::ToastIndexFile, toast.index_file)
}

fn put_toast(out: &mut Vec<u8>, toast: Option<Toast>) -> Result<(), AllocError>
    ensures { OnOk result (out.new.items ≡ out.old.items ++ lines_text (toast_statements toast)) }
{
    match toast {
        None => Ok(()),
        Some(toast) => put_toast_numbers(out, toast),
    }
}

pub(crate) fn put_table(
    out: &mut Vec<u8>,
    catalog: &Catalog,
    database: &Database,
    table: &Table,
) -> Result<(), AllocError>
    ensures text { OnOk result (out.new.items ≡ out.old.items ++ lines_text (table_statements catalog.now.roles catalog.now.tablespaces database.now.enums table.now)) }
    ensures bytes { OnOk result (is_byte_table table.now ≡ true) }
{
    put_table_numbers(out, table)?;
    put_toast(out, table.toast)?;
    put_create_table(out, catalog, database, table)?;
    Ok(())
}

// ---- indexes and sequences

pub(crate) fn put_index(
    out: &mut Vec<u8>,
    catalog: &Catalog,
    database: &Database,
    index: &Index,
) -> Result<(), AllocError>
    ensures { OnOk result (out.new.items ≡ out.old.items ++ lines_text (index_statements catalog.now.tablespaces database.now.tables index.now)) }
{
    put_next(out, NextKind::Index, index.oid)?;
    put_next(out, NextKind::IndexFile, index.file)?;
    put_create_index(out, catalog, database, index)?;
    Ok(())
}

pub(crate) fn put_sequence(
    out: &mut Vec<u8>,
    catalog: &Catalog,
    sequence: &Sequence,
) -> Result<(), AllocError>
    ensures { OnOk result (out.new.items ≡ out.old.items ++ lines_text (sequence_statements catalog.now.roles sequence.now)) }
{
    put_next(out, NextKind::Sequence, sequence.oid)?;
    put_next(out, NextKind::SequenceFile, sequence.file)?;
    let owner = role_name(catalog, sequence.owner);
    put_create_sequence(out, sequence.schema.bytes(), sequence.name.bytes(), owner)
}

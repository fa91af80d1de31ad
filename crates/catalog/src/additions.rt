// What joins a database, behind what it holds. `OutOfMemory` comes only where the object would have joined.
ghost use Rattle.std.specs.Prelude.{◌≡◌, ◌≢◌, true, false, None, Some, OnOk, OnErr, IfErr};
ghost use Rattle.std.specs.List.{list_all};
ghost use Rattle.catalog.specs.Spaces.{SchemaName, table_oids, table_files};
ghost use Rattle.catalog.specs.Known.{has_table, index_of_name, name_at};
ghost use Rattle.catalog.specs.Forms.{is_32_bits};
ghost use Rattle.catalog.specs.Refusals.{schema_refusal, enum_refusal, label_refusal, table_refusal, index_refusal, sequence_refusal};
ghost use Rattle.catalog.specs.Changes.{set_connections, add_schema, add_enum, add_label, add_table, add_index, add_sequence};

use crate::causes::{fit, fits};
use crate::databases::Database;
use crate::enums::{EnumType, Label};
use crate::error::CatalogError;
use crate::labels::label_oids_fit;
use crate::owners::{Role, Schema, Tablespace};
use crate::relations::{Index, Sequence, Table};
use crate::tables::Tables;
use object_places::NamePlaces;
use std::alloc::AllocError;

// The OIDs and the file numbers of a table have 32 bits.
fn table_numbers_fit(table: &Table)
    ensures oids { list_all is_32_bits (table_oids table.now) ≡ true }
    ensures row_type { is_32_bits table.now.row_type ≡ true }
    ensures files { list_all is_32_bits (table_files table.now) ≡ true }
{
    fits(table.row_type);
    match &table.toast {
        None => {
            fit(&[table.oid]);
            fit(&[table.file]);
        }
        Some(toast) => {
            fit(&[table.oid, toast.oid, toast.index_oid]);
            fit(&[table.file, toast.file, toast.index_file]);
        }
    }
}

// Notes the place of an index by its name, in the schema of its table. Other names lead where they did, also where
// memory lacked.
fn put_index_name(
    names: &mut NamePlaces,
    tables: &Tables,
    index: &Index,
    place: usize,
) -> Result<(), AllocError>
    requires { has_table tables.now index.now ≡ true }
    ensures others { (key : SchemaName) → index_of_name tables.now key index.now ≡ false → name_at names.new key ≡ name_at names.old key }
    ensures placed { OnOk result ((key : SchemaName) → index_of_name tables.now key index.now ≡ true → name_at names.new key ≡ Some place) }
{
    match tables.of_oid(index.table) {
        Some(table) => names.put(&table.schema, &index.name, place),
        None => Ok(()),
    }
}

impl Database {
    pub(crate) fn set_connections(&mut self, on: bool)
        ensures { self.new ≡ set_connections on self.old }
    {
        self.connections = on;
    }

    pub(crate) fn add_schema(&mut self, roles: &[Role], schema: Schema) -> Result<(), CatalogError>
        ensures ok { OnOk result ((schema_refusal roles.now self.old schema ≡ None) × (self.new ≡ add_schema schema self.old)) }
        ensures refused { IfErr result (λ e. e ≢ CatalogError.OutOfMemory → schema_refusal roles.now self.old schema ≡ Some e) }
        ensures lacking { IfErr result (λ e. e ≡ CatalogError.OutOfMemory → schema_refusal roles.now self.old schema ≡ None) }
        ensures unchanged { OnErr result (self.new ≡ self.old) }
    {
        if let Some(cause) = self.refusal_of_schema(roles, &schema) {
            return Err(cause);
        }
        self.schemas.push(schema)?;
        Ok(())
    }

    pub(crate) fn add_enum(&mut self, roles: &[Role], kind: EnumType) -> Result<(), CatalogError>
        ensures ok { OnOk result ((enum_refusal roles.now self.old kind ≡ None) × (self.new ≡ add_enum kind self.old)) }
        ensures fits { OnOk result ((is_32_bits kind.oid ≡ true) × (list_all (λ l. is_32_bits l.oid) kind.labels ≡ true)) }
        ensures refused { IfErr result (λ e. e ≢ CatalogError.OutOfMemory → enum_refusal roles.now self.old kind ≡ Some e) }
        ensures lacking { IfErr result (λ e. e ≡ CatalogError.OutOfMemory → enum_refusal roles.now self.old kind ≡ None) }
        ensures unchanged { OnErr result (self.new ≡ self.old) }
    {
        fits(kind.oid);
        label_oids_fit(kind.labels.items());
        if let Some(cause) = self.refusal_of_enum(roles, &kind) {
            return Err(cause);
        }
        self.enums.push(kind)?;
        Ok(())
    }

    pub(crate) fn add_label(&mut self, kind: u32, label: Label) -> Result<(), CatalogError>
        ensures ok { OnOk result ((label_refusal self.old kind label ≡ None) × (self.new ≡ add_label kind label self.old)) }
        ensures fits { OnOk result (is_32_bits label.oid ≡ true) }
        ensures refused { IfErr result (λ e. e ≢ CatalogError.OutOfMemory → label_refusal self.old kind label ≡ Some e) }
        ensures lacking { IfErr result (λ e. e ≡ CatalogError.OutOfMemory → label_refusal self.old kind label ≡ None) }
        ensures unchanged { OnErr result (self.new ≡ self.old) }
    {
        fits(label.oid);
        if let Some(cause) = self.refusal_of_label(kind, &label) {
            return Err(cause);
        }
        self.enums.push_label(kind, label)?;
        Ok(())
    }

    pub(crate) fn add_table(
        &mut self,
        roles: &[Role],
        tablespaces: &[Tablespace],
        table: Table,
    ) -> Result<(), CatalogError>
        ensures ok { OnOk result ((table_refusal roles.now tablespaces.now self.old table ≡ None) × (self.new ≡ add_table table self.old)) }
        ensures oids_fit { OnOk result ((list_all is_32_bits (table_oids table) ≡ true) × (is_32_bits table.row_type ≡ true)) }
        ensures files_fit { OnOk result (list_all is_32_bits (table_files table) ≡ true) }
        ensures refused { IfErr result (λ e. e ≢ CatalogError.OutOfMemory → table_refusal roles.now tablespaces.now self.old table ≡ Some e) }
        ensures lacking { IfErr result (λ e. e ≡ CatalogError.OutOfMemory → table_refusal roles.now tablespaces.now self.old table ≡ None) }
        ensures unchanged { OnErr result (self.new ≡ self.old) }
    {
        table_numbers_fit(&table);
        if let Some(cause) = self.refusal_of_table(roles, tablespaces, &table) {
            return Err(cause);
        }
        self.tables.push(table)?;
        Ok(())
    }

    pub(crate) fn add_index(
        &mut self,
        tablespaces: &[Tablespace],
        index: Index,
    ) -> Result<(), CatalogError>
        ensures ok { OnOk result ((index_refusal tablespaces.now self.old index ≡ None) × (self.new ≡ add_index index self.old)) }
        ensures fits { OnOk result ((is_32_bits index.oid ≡ true) × (is_32_bits index.file ≡ true)) }
        ensures refused { IfErr result (λ e. e ≢ CatalogError.OutOfMemory → index_refusal tablespaces.now self.old index ≡ Some e) }
        ensures lacking { IfErr result (λ e. e ≡ CatalogError.OutOfMemory → index_refusal tablespaces.now self.old index ≡ None) }
        ensures unchanged { OnErr result (self.new ≡ self.old) }
    {
        fits(index.oid);
        fits(index.file);
        if let Some(cause) = self.refusal_of_index(tablespaces, &index) {
            return Err(cause);
        }
        let place = self.indexes.items().len();
        put_index_name(&mut self.index_names, &self.tables, &index, place)?;
        self.indexes.push(index)?;
        Ok(())
    }

    pub(crate) fn add_sequence(
        &mut self,
        roles: &[Role],
        sequence: Sequence,
    ) -> Result<(), CatalogError>
        ensures ok { OnOk result ((sequence_refusal roles.now self.old sequence ≡ None) × (self.new ≡ add_sequence sequence self.old)) }
        ensures fits { OnOk result ((is_32_bits sequence.oid ≡ true) × (is_32_bits sequence.file ≡ true)) }
        ensures refused { IfErr result (λ e. e ≢ CatalogError.OutOfMemory → sequence_refusal roles.now self.old sequence ≡ Some e) }
        ensures lacking { IfErr result (λ e. e ≡ CatalogError.OutOfMemory → sequence_refusal roles.now self.old sequence ≡ None) }
        ensures unchanged { OnErr result (self.new ≡ self.old) }
    {
        fits(sequence.oid);
        fits(sequence.file);
        if let Some(cause) = self.refusal_of_sequence(roles, &sequence) {
            return Err(cause);
        }
        self.sequences.push(sequence)?;
        Ok(())
    }
}

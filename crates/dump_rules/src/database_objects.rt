// Statements about the objects of a database that have no file of rows: schemas, enums with their labels, sequences.
ghost use Rattle.std.specs.Prelude.{◌≡◌, ◌≢◌, true, [], Ok, Err, OnOk, OnErr, IfErr};
ghost use Rattle.catalog.specs.declared.error.CatalogError.TheVariants.{OutOfMemory};
ghost use Rattle.catalog.specs.Forms.{is_name};
ghost use Rattle.catalog.specs.Changes.{with_schema, with_enum, with_label, with_sequence};
ghost use Rattle.dump_grammar.specs.declared.error.TextCause.TheVariants as causes;
ghost use Rattle.dump_rules.specs.Rules.{found, role_oid, enum_oid, database_of, create_schema, create_enum, add_label, create_sequence};
ghost use Rattle.dump_rules.specs.Causes.{state_of};
ghost use Rattle.dump_rules.specs.Made.{schema_made, enum_made, label_made};

use crate::named::{connected_database, enum_oid, role_oid};
use crate::numbers::Session;
use crate::sessions::cause_of;
use catalog::{Catalog, CatalogError, Database, EnumType, Label, Labels, Schema, Sequence};
use dump_grammar::{NextKind, TextCause};
use fs_model::Text;
use std::alloc::Global;

fn add_schema(
    catalog: &mut Catalog,
    connected: Option<u32>,
    name: Text,
    owner: &Text,
) -> Result<(), CatalogError>
    requires { is_name name ≡ true }
    ensures ok { OnOk result (schema_made catalog.old connected name owner.now ≡ Ok catalog.new) }
    ensures refused { IfErr result (λ e. e ≢ OutOfMemory → schema_made catalog.old connected name owner.now ≡ Err e) }
    ensures unchanged { OnErr result (catalog.new ≡ catalog.old) }
{
    match connected_database(catalog, connected) {
        None => Err(CatalogError::NoSuch),
        Some(database) => {
            let database = database.oid;
            match role_oid(catalog, owner) {
                None => Err(CatalogError::NoSuch),
                Some(owner) => catalog.add_schema(database, Schema { name, owner }),
            }
        }
    }
}

// The session stays as it is.
pub(crate) fn create_schema(
    catalog: &mut Catalog,
    session: &Session,
    name: Text,
    owner: &Text,
) -> Result<(), TextCause>
    requires { is_name name ≡ true }
    ensures ok { OnOk result (create_schema (state_of catalog.old session.now) name owner.now ≡ Ok (state_of catalog.new session.now)) }
    ensures refused { IfErr result (λ e. e ≢ causes.OutOfMemory → create_schema (state_of catalog.old session.now) name owner.now ≡ Err e) }
    ensures unchanged { OnErr result (catalog.new ≡ catalog.old) }
    ensures memory { IfErr result (λ e. e ≢ causes.Catalog OutOfMemory) }
{
    match add_schema(catalog, session.connected, name, owner) {
        Err(error) => Err(cause_of(error)),
        Ok(()) => Ok(()),
    }
}

// An enum without labels.
fn add_enum(
    alloc: Global,
    catalog: &mut Catalog,
    connected: Option<u32>,
    oid: u32,
    schema: Text,
    name: Text,
    owner: &Text,
) -> Result<(), CatalogError>
    requires { is_name name ≡ true }
    ensures ok { OnOk result (enum_made catalog.old connected oid schema name owner.now ≡ Ok catalog.new) }
    ensures refused { IfErr result (λ e. e ≢ OutOfMemory → enum_made catalog.old connected oid schema name owner.now ≡ Err e) }
    ensures unchanged { OnErr result (catalog.new ≡ catalog.old) }
{
    match connected_database(catalog, connected) {
        None => Err(CatalogError::NoSuch),
        Some(database) => {
            let database = database.oid;
            match role_oid(catalog, owner) {
                None => Err(CatalogError::NoSuch),
                Some(owner) => catalog.add_enum(
                    database,
                    EnumType {
                        oid,
                        schema,
                        name,
                        owner,
                        labels: Labels::new(Vec::new(alloc)),
                    },
                ),
            }
        }
    }
}

pub(crate) fn create_enum(
    alloc: Global,
    catalog: &mut Catalog,
    session: &mut Session,
    schema: Text,
    name: Text,
    owner: &Text,
) -> Result<(), TextCause>
    requires { is_name name ≡ true }
    ensures ok { OnOk result (create_enum (state_of catalog.old session.old) schema name owner.now ≡ Ok (state_of catalog.new session.new)) }
    ensures refused { IfErr result (λ e. e ≢ causes.OutOfMemory → create_enum (state_of catalog.old session.old) schema name owner.now ≡ Err e) }
    ensures unchanged { OnErr result ((catalog.new ≡ catalog.old) × (session.new ≡ session.old)) }
    ensures memory { IfErr result (λ e. e ≢ causes.Catalog OutOfMemory) }
{
    match session.numbers.type_oid {
        None => Err(TextCause::MissingOid),
        Some(oid) => {
            match add_enum(alloc, catalog, session.connected, oid, schema, name, owner) {
                Err(error) => Err(cause_of(error)),
                Ok(()) => {
                    session.take(NextKind::TypeOid);
                    Ok(())
                }
            }
        }
    }
}

// A label behind those of the enum of a schema and a name.
fn append_label(
    catalog: &mut Catalog,
    connected: Option<u32>,
    oid: u32,
    schema: &Text,
    name: &Text,
    text: Text,
) -> Result<(), CatalogError>
    ensures ok { OnOk result (label_made catalog.old connected oid schema.now name.now text ≡ Ok catalog.new) }
    ensures refused { IfErr result (λ e. e ≢ OutOfMemory → label_made catalog.old connected oid schema.now name.now text ≡ Err e) }
    ensures unchanged { OnErr result (catalog.new ≡ catalog.old) }
{
    match connected_database(catalog, connected) {
        None => Err(CatalogError::NoSuch),
        Some(database) => {
            let kind = enum_oid(database, schema, name);
            let database = database.oid;
            match kind {
                None => Err(CatalogError::NoSuch),
                Some(kind) => catalog.add_label(database, kind, Label { oid, text }),
            }
        }
    }
}

pub(crate) fn add_label(
    catalog: &mut Catalog,
    session: &mut Session,
    schema: &Text,
    name: &Text,
    text: Text,
) -> Result<(), TextCause>
    ensures ok { OnOk result (add_label (state_of catalog.old session.old) schema.now name.now text ≡ Ok (state_of catalog.new session.new)) }
    ensures refused { IfErr result (λ e. e ≢ causes.OutOfMemory → add_label (state_of catalog.old session.old) schema.now name.now text ≡ Err e) }
    ensures unchanged { OnErr result ((catalog.new ≡ catalog.old) × (session.new ≡ session.old)) }
    ensures memory { IfErr result (λ e. e ≢ causes.Catalog OutOfMemory) }
{
    match session.numbers.label {
        None => Err(TextCause::MissingOid),
        Some(oid) => {
            match append_label(catalog, session.connected, oid, schema, name, text) {
                Err(error) => Err(cause_of(error)),
                Ok(()) => {
                    session.take(NextKind::Label);
                    Ok(())
                }
            }
        }
    }
}

// What a statement makes of a catalog and a session.
ghost use Rattle.std.specs.Prelude.{◌≡◌, ◌≢◌, Ok, Err, OnOk, OnErr, IfErr};
ghost use Rattle.catalog.specs.declared.error.CatalogError.{CatalogError};
ghost use Rattle.catalog.specs.declared.error.CatalogError.TheVariants.{OutOfMemory};
ghost use Rattle.dump_grammar.specs.declared.error.TextCause.TheVariants as causes;
ghost use Rattle.dump_grammar.specs.Spelling.{IsStatement};
ghost use Rattle.dump_rules.specs.Rules.{State, step};

use crate::cluster_objects::{
    alter_database, connect, create_database, create_role, create_tablespace, name_bootstrap,
};
use crate::database_objects::{add_label, create_enum, create_schema};
use crate::indexes::create_index;
use crate::numbers::Session;
use crate::sequences::create_sequence;
use crate::tables::create_table;
use catalog::Catalog;
use dump_grammar::{Statement, TextCause};
use std::alloc::Global;

/// Applies a statement to a catalog, in a session. A statement that is refused changes neither; the causes are tested in
/// the order `MissingOid`, `Catalog`, and `OutOfMemory` may come at any time. What it makes is `step` of `specs/Rules.antt`.
#[tactic(auto, unfolding(crate::specs::Rules::step))]
pub fn apply(
    alloc: Global,
    catalog: &mut Catalog,
    session: &mut Session,
    statement: Statement,
) -> Result<(), TextCause>
    requires { IsStatement statement }
    ensures ok { OnOk result (step (record { catalog = catalog.old; session = session.old }) statement ≡ Ok (record { catalog = catalog.new; session = session.new })) }
    ensures refused { IfErr result (λ e. e ≢ causes.OutOfMemory → step (record { catalog = catalog.old; session = session.old }) statement ≡ Err e) }
    ensures unchanged { OnErr result ((catalog.new ≡ catalog.old) × (session.new ≡ session.old)) }
    ensures memory { IfErr result (λ e. e ≢ causes.Catalog OutOfMemory) }
{
    match statement {
        Statement::Bootstrap(name) => name_bootstrap(catalog, session, &name),
        Statement::SetNext(kind, number) => {
            session.set(kind, number);
            Ok(())
        }
        Statement::CreateRole(name) => create_role(catalog, session, name),
        Statement::CreateTablespace {
            name,
            owner,
            location,
        } => create_tablespace(catalog, session, name, &owner, location),
        Statement::CreateDatabase { name, owner } => {
            create_database(alloc, catalog, session, name, &owner)
        }
        Statement::AlterDatabase { name, connections } => {
            alter_database(catalog, session, &name, connections)
        }
        Statement::Connect(name) => connect(catalog, session, &name),
        Statement::CreateSchema { name, owner } => create_schema(catalog, session, name, &owner),
        Statement::CreateEnum {
            schema,
            name,
            owner,
        } => create_enum(alloc, catalog, session, schema, name, &owner),
        Statement::AddLabel { schema, name, text } => {
            add_label(catalog, session, &schema, &name, text)
        }
        Statement::CreateTable {
            schema,
            name,
            owner,
            tablespace,
            columns,
        } => create_table(
            alloc,
            catalog,
            session,
            schema,
            name,
            &owner,
            &tablespace,
            columns,
        ),
        Statement::CreateIndex {
            name,
            schema,
            table,
            tablespace,
            keys,
        } => create_index(catalog, session, name, &schema, &table, &tablespace, keys),
        Statement::CreateSequence {
            schema,
            name,
            owner,
        } => create_sequence(catalog, session, schema, name, &owner),
    }
}

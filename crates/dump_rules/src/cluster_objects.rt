// Statements about what a cluster holds beside its databases' contents: roles, tablespaces, databases.
ghost use Rattle.std.specs.Prelude.{◌≡◌, ◌≢◌, true, bytes_eq, Ok, Err, Some, OnOk, OnErr, IfErr};
ghost use Rattle.catalog.specs.declared.error.CatalogError.TheVariants.{OutOfMemory, NoSuch};
ghost use Rattle.catalog.specs.Forms.{is_name};
ghost use Rattle.dump_grammar.specs.declared.error.TextCause.TheVariants as causes;
ghost use Rattle.catalog.specs.Cluster.{fresh_database};
ghost use Rattle.catalog.specs.Changes.{with_tablespace, with_database, with_connections};
ghost use Rattle.dump_rules.specs.Rules.{found, role_oid, database_oid, bootstrap, create_role, create_tablespace, create_database, alter_database, connect};
ghost use Rattle.dump_rules.specs.Causes.{state_of};
ghost use Rattle.dump_rules.specs.Made.{tablespace_made, database_made, connections_made};

use crate::named::{database_oid, role_oid};
use crate::numbers::Session;
use crate::sessions::cause_of;
use catalog::{Catalog, CatalogError, Database, Role, Tablespace};
use dump_grammar::{NextKind, TextCause};
use fs_model::{Path, Text};
use std::alloc::Global;

fn is_bootstrap(catalog: &Catalog, name: &Text) -> bool
    ensures { result ≡ bytes_eq catalog.now.bootstrap name.now }
{
    catalog.bootstrap().bytes() == name.bytes()
}

// Holds where the name is that of the role that made the cluster.
pub(crate) fn name_bootstrap(
    catalog: &Catalog,
    session: &Session,
    name: &Text,
) -> Result<(), TextCause>
    ensures ok { OnOk result (bootstrap (state_of catalog.now session.now) name.now ≡ Ok (state_of catalog.now session.now)) }
    ensures refused { IfErr result (λ e. bootstrap (state_of catalog.now session.now) name.now ≡ Err e) }
    ensures memory { IfErr result (λ e. e ≢ causes.Catalog OutOfMemory) }
{
    if is_bootstrap(catalog, name) {
        Ok(())
    } else {
        Err(TextCause::Catalog(CatalogError::NoSuch))
    }
}

pub(crate) fn create_role(
    catalog: &mut Catalog,
    session: &mut Session,
    name: Text,
) -> Result<(), TextCause>
    requires { is_name name ≡ true }
    ensures ok { OnOk result (create_role (state_of catalog.old session.old) name ≡ Ok (state_of catalog.new session.new)) }
    ensures refused { IfErr result (λ e. e ≢ causes.OutOfMemory → create_role (state_of catalog.old session.old) name ≡ Err e) }
    ensures unchanged { OnErr result ((catalog.new ≡ catalog.old) × (session.new ≡ session.old)) }
    ensures memory { IfErr result (λ e. e ≢ causes.Catalog OutOfMemory) }
{
    match session.numbers.role {
        None => Err(TextCause::MissingOid),
        Some(oid) => match catalog.add_role(Role { oid, name }) {
            Err(error) => Err(cause_of(error)),
            Ok(()) => {
                session.take(NextKind::Role);
                Ok(())
            }
        },
    }
}

fn add_tablespace(
    catalog: &mut Catalog,
    oid: u32,
    name: Text,
    owner: &Text,
    location: Path,
) -> Result<(), CatalogError>
    requires { is_name name ≡ true }
    ensures ok { OnOk result (tablespace_made catalog.old oid name owner.now location ≡ Ok catalog.new) }
    ensures refused { IfErr result (λ e. e ≢ OutOfMemory → tablespace_made catalog.old oid name owner.now location ≡ Err e) }
    ensures unchanged { OnErr result (catalog.new ≡ catalog.old) }
{
    match role_oid(catalog, owner) {
        None => Err(CatalogError::NoSuch),
        Some(owner) => catalog.add_tablespace(Tablespace {
            oid,
            name,
            owner,
            location,
        }),
    }
}

pub(crate) fn create_tablespace(
    catalog: &mut Catalog,
    session: &mut Session,
    name: Text,
    owner: &Text,
    location: Path,
) -> Result<(), TextCause>
    requires { is_name name ≡ true }
    ensures ok { OnOk result (create_tablespace (state_of catalog.old session.old) name owner.now location ≡ Ok (state_of catalog.new session.new)) }
    ensures refused { IfErr result (λ e. e ≢ causes.OutOfMemory → create_tablespace (state_of catalog.old session.old) name owner.now location ≡ Err e) }
    ensures unchanged { OnErr result ((catalog.new ≡ catalog.old) × (session.new ≡ session.old)) }
    ensures memory { IfErr result (λ e. e ≢ causes.Catalog OutOfMemory) }
{
    match session.numbers.tablespace {
        None => Err(TextCause::MissingOid),
        Some(oid) => match add_tablespace(catalog, oid, name, owner, location) {
            Err(error) => Err(cause_of(error)),
            Ok(()) => {
                session.take(NextKind::Tablespace);
                Ok(())
            }
        },
    }
}

fn add_database(
    alloc: Global,
    catalog: &mut Catalog,
    oid: u32,
    name: Text,
    owner: &Text,
) -> Result<(), CatalogError>
    requires { is_name name ≡ true }
    ensures ok { OnOk result (database_made catalog.old oid name owner.now ≡ Ok catalog.new) }
    ensures refused { IfErr result (λ e. e ≢ OutOfMemory → database_made catalog.old oid name owner.now ≡ Err e) }
    ensures unchanged { OnErr result (catalog.new ≡ catalog.old) }
{
    match role_oid(catalog, owner) {
        None => Err(CatalogError::NoSuch),
        Some(owner) => {
            let database = Database::fresh(alloc, oid, name, owner, true)?;
            catalog.add_database(database)
        }
    }
}

pub(crate) fn create_database(
    alloc: Global,
    catalog: &mut Catalog,
    session: &mut Session,
    name: Text,
    owner: &Text,
) -> Result<(), TextCause>
    requires { is_name name ≡ true }
    ensures ok { OnOk result (create_database (state_of catalog.old session.old) name owner.now ≡ Ok (state_of catalog.new session.new)) }
    ensures refused { IfErr result (λ e. e ≢ causes.OutOfMemory → create_database (state_of catalog.old session.old) name owner.now ≡ Err e) }
    ensures unchanged { OnErr result ((catalog.new ≡ catalog.old) × (session.new ≡ session.old)) }
    ensures memory { IfErr result (λ e. e ≢ causes.Catalog OutOfMemory) }
{
    match session.numbers.database {
        None => Err(TextCause::MissingOid),
        Some(oid) => match add_database(alloc, catalog, oid, name, owner) {
            Err(error) => Err(cause_of(error)),
            Ok(()) => {
                session.take(NextKind::Database);
                Ok(())
            }
        },
    }
}

fn set_connections(catalog: &mut Catalog, name: &Text, on: bool) -> Result<(), CatalogError>
    ensures ok { OnOk result (connections_made catalog.old name.now on ≡ Ok catalog.new) }
    ensures refused { IfErr result (λ e. connections_made catalog.old name.now on ≡ Err e) }
    ensures unchanged { OnErr result (catalog.new ≡ catalog.old) }
{
    match database_oid(catalog, name) {
        None => Err(CatalogError::NoSuch),
        Some(oid) => catalog.set_connections(oid, on),
    }
}

// The session stays as it is.
pub(crate) fn alter_database(
    catalog: &mut Catalog,
    session: &Session,
    name: &Text,
    on: bool,
) -> Result<(), TextCause>
    ensures ok { OnOk result (alter_database (state_of catalog.old session.now) name.now on ≡ Ok (state_of catalog.new session.now)) }
    ensures refused { IfErr result (λ e. e ≢ causes.OutOfMemory → alter_database (state_of catalog.old session.now) name.now on ≡ Err e) }
    ensures unchanged { OnErr result (catalog.new ≡ catalog.old) }
    ensures memory { IfErr result (λ e. e ≢ causes.Catalog OutOfMemory) }
{
    match set_connections(catalog, name, on) {
        Err(error) => Err(cause_of(error)),
        Ok(()) => Ok(()),
    }
}

// The catalog stays as it is.
pub(crate) fn connect(
    catalog: &Catalog,
    session: &mut Session,
    name: &Text,
) -> Result<(), TextCause>
    ensures ok { OnOk result (connect (state_of catalog.now session.old) name.now ≡ Ok (state_of catalog.now session.new)) }
    ensures refused { IfErr result (λ e. connect (state_of catalog.now session.old) name.now ≡ Err e) }
    ensures unchanged { OnErr result (session.new ≡ session.old) }
    ensures memory { IfErr result (λ e. e ≢ causes.Catalog OutOfMemory) }
{
    match database_oid(catalog, name) {
        None => Err(TextCause::Catalog(CatalogError::NoSuch)),
        Some(oid) => {
            session.connected = Some(oid);
            Ok(())
        }
    }
}

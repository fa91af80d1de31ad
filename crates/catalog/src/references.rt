// Whether what an object speaks of is there, and what else may refuse an object of the cluster.
ghost use Rattle.std.specs.Prelude.{◌≡◌, ◌||◌, true, bytes_eq, nat_eq, codes};
ghost use Rattle.std.specs.List.{list_any, list_all};
ghost use Rattle.catalog.specs.Spaces.{role_oids, role_names, tablespace_oids, tablespace_names, database_oids, database_names};
ghost use Rattle.catalog.specs.Forms.{has_role, has_tablespace};
ghost use Rattle.catalog.specs.Refusals.{role_refusal, tablespace_refusal, database_refusal};
ghost use Rattle.fs_model.specs.Names.{is_name};

use crate::causes::{first_cause, is_system_number};
use crate::databases::Database;
use crate::error::CatalogError;
use crate::lists::either;
use crate::owners::{Role, Tablespace};
use fs_model::{Name, Text};

pub(crate) fn has_role(roles: &[Role], oid: u32) -> bool
    ensures { result ≡ has_role roles.now oid }
{
    roles.iter().any(|role| role.oid == oid)
}

pub(crate) fn has_tablespace(tablespaces: &[Tablespace], oid: u32) -> bool
    ensures { result ≡ has_tablespace tablespaces.now oid }
{
    tablespaces.iter().any(|tablespace| tablespace.oid == oid)
}

fn is_role_oid(roles: &[Role], oid: u32) -> bool
    ensures { result ≡ list_any (λ r. nat_eq oid r.oid) roles.now }
{
    roles.iter().any(|role| oid == role.oid)
}

fn is_role_name(roles: &[Role], name: &Text) -> bool
    ensures { result ≡ list_any (λ r. bytes_eq name.now r.name) roles.now }
{
    roles.iter().any(|role| name.bytes() == role.name.bytes())
}

#[tactic(auto, using(crate::proofs::SpaceLemmas::any_map))]
pub(crate) fn refusal_of_role(roles: &[Role], role: &Role) -> Option<CatalogError>
    ensures { result ≡ role_refusal roles.now role.now }
{
    let oid_taken = either(is_system_number(role.oid), is_role_oid(roles, role.oid));
    let name_taken = is_role_name(roles, &role.name);
    first_cause(false, false, oid_taken, name_taken, false)
}

fn is_tablespace_oid(tablespaces: &[Tablespace], oid: u32) -> bool
    ensures { result ≡ list_any (λ t. nat_eq oid t.oid) tablespaces.now }
{
    tablespaces.iter().any(|tablespace| oid == tablespace.oid)
}

fn is_pg_global(name: &Text) -> bool
    ensures { result ≡ bytes_eq name.now (codes "pg_global") }
{
    name.bytes() == b"pg_global".as_slice()
}

fn is_listed_name(tablespaces: &[Tablespace], name: &Text) -> bool
    ensures { result ≡ list_any (λ t. bytes_eq name.now t.name) tablespaces.now }
{
    tablespaces
        .iter()
        .any(|tablespace| name.bytes() == tablespace.name.bytes())
}

#[tactic(auto, using(crate::proofs::SpaceLemmas::any_map))]
fn is_tablespace_name(tablespaces: &[Tablespace], name: &Text) -> bool
    ensures { result ≡ list_any (bytes_eq name.now) (tablespace_names tablespaces.now) }
{
    either(is_pg_global(name), is_listed_name(tablespaces, name))
}

#[tactic(auto, using(crate::proofs::SpaceLemmas::any_map))]
pub(crate) fn refusal_of_tablespace(
    roles: &[Role],
    tablespaces: &[Tablespace],
    tablespace: &Tablespace,
) -> Option<CatalogError>
    ensures { result ≡ tablespace_refusal roles.now tablespaces.now tablespace.now }
{
    let owner = has_role(roles, tablespace.owner);
    let oid = tablespace.oid;
    let oid_taken = either(is_system_number(oid), is_tablespace_oid(tablespaces, oid));
    let name_taken = is_tablespace_name(tablespaces, &tablespace.name);
    first_cause(!owner, false, oid_taken, name_taken, false)
}

// The names of a location are names of directories.
pub(crate) fn are_file_names(names: &[Name])
    ensures { list_all is_name names.now ≡ true }
{
    for name in names {
        let _ = name.text();
    }
}

fn is_database_oid(databases: &[Database], oid: u32) -> bool
    ensures { result ≡ list_any (λ d. nat_eq oid d.oid) databases.now }
{
    databases.iter().any(|database| oid == database.oid)
}

fn is_database_name(databases: &[Database], name: &Text) -> bool
    ensures { result ≡ list_any (λ d. bytes_eq name.now d.name) databases.now }
{
    databases
        .iter()
        .any(|database| name.bytes() == database.name.bytes())
}

#[tactic(auto, using(crate::proofs::SpaceLemmas::any_map))]
pub(crate) fn refusal_of_database(
    roles: &[Role],
    databases: &[Database],
    database: &Database,
) -> Option<CatalogError>
    ensures { result ≡ database_refusal roles.now databases.now database.now }
{
    let owner = has_role(roles, database.owner);
    let oid_taken = either(
        is_system_number(database.oid),
        is_database_oid(databases, database.oid),
    );
    let name_taken = is_database_name(databases, &database.name);
    first_cause(!owner, false, oid_taken, name_taken, false)
}

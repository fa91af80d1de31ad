ghost use Rattle.std.specs.Prelude.{◌≡◌, ◌↔◌, IsTrue, ◌∷◌, [], true, IfOk, IfErr, slice_get};
ghost use Rattle.std.specs.Option.{option_copied};
ghost use Rattle.std.specs.List.{find};
ghost use Rattle.catalog.specs.declared.error.CatalogError.TheVariants.{OutOfMemory};
ghost use Rattle.catalog.specs.Cluster.{started, fresh_database, first_databases, first_role, first_tablespace, bootstrap_role};
ghost use Rattle.catalog.specs.Spaces.{database_has};
ghost use Rattle.catalog.specs.Forms.{is_name};
ghost use Rattle.catalog.specs.Valid.{IsValid};

use crate::databases::{BOOTSTRAP_ROLE, Database};
use crate::error::CatalogError;
use crate::lists::DEFAULT_TABLESPACE;
use crate::owners::{Role, Tablespace};
use crate::same::{both, same_items, same_text};
use fs_model::{Path, Text};
use std::alloc::Global;
use std::marker::Model;

/// The objects of a cluster, each list in the order of its additions. It is valid at all times.
#[derive(Drop)]
pub struct Catalog {
    pub(crate) bootstrap: Text,
    pub(crate) roles: Vec<Role>,
    pub(crate) tablespaces: Vec<Tablespace>,
    pub(crate) databases: Vec<Database>,
}

impl Model for Catalog {
    ghost use Rattle.catalog.specs.Cluster.{Cluster};
    ghost use Rattle.catalog.specs.Valid.{IsValid};

    ghost Value = { Cluster };

    ghost view = { λ c. record { bootstrap = c.bootstrap; roles = c.roles.items; tablespaces = c.tablespaces.items; databases = c.databases.items } };

    ghost invariant = { λ c. IsValid (record { bootstrap = c.bootstrap; roles = c.roles.items; tablespaces = c.tablespaces.items; databases = c.databases.items }) };
}

fn text_of(alloc: Global, bytes: &[u8]) -> Result<Text, CatalogError>
    ensures made { IfOk result (λ text. text ≡ bytes.now) }
    ensures error { IfErr result (λ e. e ≡ OutOfMemory) }
{
    Ok(Text::new(Vec::from_slice(alloc, bytes)?))
}

fn first_roles(alloc: Global, name: &Text) -> Result<Vec<Role>, CatalogError>
    ensures made { IfOk result (λ roles. roles.items ≡ first_role name.now ∷ []) }
    ensures error { IfErr result (λ e. e ≡ OutOfMemory) }
{
    let mut roles = Vec::new(alloc);
    roles.push(Role {
        oid: BOOTSTRAP_ROLE,
        name: name.clone()?,
    })?;
    Ok(roles)
}

fn first_tablespaces(alloc: Global) -> Result<Vec<Tablespace>, CatalogError>
    ensures made { IfOk result (λ tablespaces. tablespaces.items ≡ first_tablespace ∷ []) }
    ensures error { IfErr result (λ e. e ≡ OutOfMemory) }
{
    let mut tablespaces = Vec::new(alloc);
    tablespaces.push(Tablespace {
        oid: DEFAULT_TABLESPACE,
        name: text_of(alloc, b"pg_default")?,
        owner: BOOTSTRAP_ROLE,
        location: Path::root(alloc),
    })?;
    Ok(tablespaces)
}

fn first_database(
    alloc: Global,
    oid: u32,
    name: &[u8],
    connections: bool,
) -> Result<Database, CatalogError>
    ensures made { IfOk result (λ d. d ≡ fresh_database oid name.now bootstrap_role connections) }
    ensures error { IfErr result (λ e. e ≡ OutOfMemory) }
{
    let name = text_of(alloc, name)?;
    Database::fresh(alloc, oid, name, BOOTSTRAP_ROLE, connections)
}

fn first_databases(alloc: Global) -> Result<Vec<Database>, CatalogError>
    ensures made { IfOk result (λ databases. databases.items ≡ first_databases) }
    ensures error { IfErr result (λ e. e ≡ OutOfMemory) }
{
    let mut databases = Vec::new(alloc);
    databases.push(first_database(alloc, 1, b"template1", true)?)?;
    databases.push(first_database(alloc, 4, b"template0", false)?)?;
    databases.push(first_database(alloc, 5, b"postgres", true)?)?;
    Ok(databases)
}

impl Catalog {
    /// The catalog that a cluster starts with: role 10 of that name, tablespace 1663 `pg_default`, and the databases 1
    /// `template1`, 4 `template0`, whose connections are off, and 5 `postgres`, all owned by role 10, each with the schema
    /// `public`. `OutOfMemory` alone is answered.
    pub fn start(alloc: Global, bootstrap: Text) -> Result<Catalog, CatalogError>
        requires { is_name bootstrap ≡ true }
        ensures made { IfOk result (λ c. c ≡ started bootstrap) }
        ensures error { IfErr result (λ e. e ≡ OutOfMemory) }
    {
        let roles = first_roles(alloc, &bootstrap)?;
        let tablespaces = first_tablespaces(alloc)?;
        let databases = first_databases(alloc)?;
        Ok(Catalog {
            bootstrap,
            roles,
            tablespaces,
            databases,
        })
    }

    /// The name of the role that made the cluster.
    pub fn bootstrap(&self) -> &Text
        ensures name { result.now ≡ self.now.bootstrap }
        ensures valid { IsValid self.now }
    {
        &self.bootstrap
    }

    /// The role at a place, counted from 0.
    pub fn role_at(&self, n: usize) -> Option<&Role>
        ensures { option_copied result ≡ slice_get self.now.roles n }
    {
        self.roles.get(n)
    }

    /// The tablespace at a place, counted from 0.
    pub fn tablespace_at(&self, n: usize) -> Option<&Tablespace>
        ensures { option_copied result ≡ slice_get self.now.tablespaces n }
    {
        self.tablespaces.get(n)
    }

    /// The database at a place, counted from 0.
    pub fn database_at(&self, n: usize) -> Option<&Database>
        ensures { option_copied result ≡ slice_get self.now.databases n }
    {
        self.databases.get(n)
    }

    /// The database of an OID.
    pub fn database(&self, oid: u32) -> Option<&Database>
        ensures { option_copied result ≡ find (database_has oid) self.now.databases }
    {
        self.databases.iter().find(|database| database.oid == oid)
    }

    /// Whether the catalogs are equal: the same objects in the same order. Takes no memory.
    pub fn same(&self, other: &Catalog) -> bool
        ensures { IsTrue result ↔ (self.now ≡ other.now) }
    {
        let bootstrap = same_text(&self.bootstrap, &other.bootstrap);
        let roles = same_items(&self.roles, &other.roles);
        let tablespaces = same_items(&self.tablespaces, &other.tablespaces);
        let databases = same_items(&self.databases, &other.databases);
        both(bootstrap, both(roles, both(tablespaces, databases)))
    }
}

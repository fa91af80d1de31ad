ghost use Rattle.std.specs.Prelude.{◌≡◌, IfOk, IfErr, slice_get};
ghost use Rattle.std.specs.Option.{option_copied};
ghost use Rattle.std.specs.List.{find};
ghost use Rattle.catalog.specs.declared.error.CatalogError.TheVariants.{OutOfMemory};
ghost use Rattle.catalog.specs.Cluster.{fresh_database, public_schema};
ghost use Rattle.catalog.specs.Spaces.{table_has};

use crate::enum_types::EnumTypes;
use crate::enums::EnumType;
use crate::error::CatalogError;
use crate::indexes::Indexes;
use crate::owners::Schema;
use crate::relations::{Index, Sequence, Table};
use crate::schemas::Schemas;
use crate::sequences::Sequences;
use crate::tables::Tables;
use fs_model::Text;
use object_places::NamePlaces;
use std::alloc::Global;
use std::marker::Model;

// The OID of the role that made the cluster, `BOOTSTRAP_SUPERUSERID` of `catalog/pg_authid.dat`.
pub(crate) const BOOTSTRAP_ROLE: u32 = 10;

/// A database, of `pg_database`, with what it holds, each list in the order of its additions.
#[derive(Drop)]
pub struct Database {
    pub oid: u32,
    pub name: Text,
    /// The OID of a role.
    pub owner: u32,
    /// Whether it may be connected to, `datallowconn`.
    pub connections: bool,
    pub(crate) schemas: Schemas,
    pub(crate) enums: EnumTypes,
    pub(crate) tables: Tables,
    pub(crate) indexes: Indexes,
    // the places of the indexes by their names, in the schemas of their tables
    pub(crate) index_names: NamePlaces,
    pub(crate) sequences: Sequences,
}

impl Model for Database {
    ghost use Rattle.catalog.specs.Cluster.{DatabaseObjects};

    ghost Value = { DatabaseObjects };

    ghost view = { λ d. record { oid = d.oid; name = d.name; owner = d.owner; connections = d.connections; schemas = d.schemas; enums = d.enums; tables = d.tables; indexes = d.indexes; sequences = d.sequences } };

    ghost use Rattle.catalog.specs.Known.{IndexNamesKnown};

    ghost invariant = { λ d. IndexNamesKnown d.tables d.indexes d.index_names };
}

// The schema that each database has from the start.
fn public_schema(alloc: Global) -> Result<Schema, CatalogError>
    ensures made { IfOk result (λ schema. schema ≡ public_schema) }
    ensures error { IfErr result (λ e. e ≡ OutOfMemory) }
{
    let name = Text::new(Vec::from_slice(alloc, b"public")?);
    Ok(Schema {
        name,
        owner: BOOTSTRAP_ROLE,
    })
}

impl Database {
    /// A database with the schema `public` alone, which the role 10 owns. `OutOfMemory` alone is answered.
    pub fn fresh(
        alloc: Global,
        oid: u32,
        name: Text,
        owner: u32,
        connections: bool,
    ) -> Result<Database, CatalogError>
        ensures made { IfOk result (λ d. d ≡ fresh_database oid name owner connections) }
        ensures error { IfErr result (λ e. e ≡ OutOfMemory) }
    {
        let mut schemas = Schemas::new(alloc);
        schemas.push(public_schema(alloc)?)?;
        Ok(Database {
            oid,
            name,
            owner,
            connections,
            schemas,
            enums: EnumTypes::new(alloc),
            tables: Tables::new(alloc),
            indexes: Indexes::new(alloc),
            index_names: NamePlaces::new(alloc),
            sequences: Sequences::new(alloc),
        })
    }

    /// The schema at a place, counted from 0.
    pub fn schema_at(&self, n: usize) -> Option<&Schema>
        ensures { option_copied result ≡ slice_get self.now.schemas n }
    {
        self.schemas.items().get(n)
    }

    /// The enum at a place, counted from 0.
    pub fn enum_at(&self, n: usize) -> Option<&EnumType>
        ensures { option_copied result ≡ slice_get self.now.enums n }
    {
        self.enums.items().get(n)
    }

    /// The table at a place, counted from 0.
    pub fn table_at(&self, n: usize) -> Option<&Table>
        ensures { option_copied result ≡ slice_get self.now.tables n }
    {
        self.tables.items().get(n)
    }

    /// The index at a place, counted from 0.
    pub fn index_at(&self, n: usize) -> Option<&Index>
        ensures { option_copied result ≡ slice_get self.now.indexes n }
    {
        self.indexes.items().get(n)
    }

    /// The sequence at a place, counted from 0.
    pub fn sequence_at(&self, n: usize) -> Option<&Sequence>
        ensures { option_copied result ≡ slice_get self.now.sequences n }
    {
        self.sequences.items().get(n)
    }

    /// The table of an OID.
    pub fn table(&self, oid: u32) -> Option<&Table>
        ensures { option_copied result ≡ find (table_has oid) self.now.tables }
    {
        self.tables.of_oid(oid)
    }
}

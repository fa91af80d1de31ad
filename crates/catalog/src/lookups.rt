// What a catalog holds: by OID, by name, and how many. None of these calls takes memory.
ghost use Rattle.std.specs.Prelude.{◌≡◌, length};
ghost use Rattle.std.specs.Option.{option_copied};
ghost use Rattle.std.specs.List.{find};
ghost use Rattle.catalog.specs.Spaces.{role_has, tablespace_has, enum_has};
ghost use Rattle.catalog.specs.Lookups.{role_is, tablespace_is, database_is, enum_is, table_is};

use crate::cluster::Catalog;
use crate::databases::Database;
use crate::enums::EnumType;
use crate::owners::{Role, Tablespace};
use crate::relations::Table;
use fs_model::Text;

impl Catalog {
    /// The number of roles.
    pub fn role_count(&self) -> usize
        ensures { result ≡ length self.now.roles }
    {
        self.roles.len()
    }

    /// The number of tablespaces.
    pub fn tablespace_count(&self) -> usize
        ensures { result ≡ length self.now.tablespaces }
    {
        self.tablespaces.len()
    }

    /// The number of databases.
    pub fn database_count(&self) -> usize
        ensures { result ≡ length self.now.databases }
    {
        self.databases.len()
    }

    /// The role of an OID.
    pub fn role(&self, oid: u32) -> Option<&Role>
        ensures { option_copied result ≡ find (role_has oid) self.now.roles }
    {
        self.roles.iter().find(|role| role.oid == oid)
    }

    /// The tablespace of an OID.
    pub fn tablespace(&self, oid: u32) -> Option<&Tablespace>
        ensures { option_copied result ≡ find (tablespace_has oid) self.now.tablespaces }
    {
        self.tablespaces
            .iter()
            .find(|tablespace| tablespace.oid == oid)
    }

    /// The role of a name.
    pub fn role_named(&self, name: &Text) -> Option<&Role>
        ensures { option_copied result ≡ find (role_is name.now) self.now.roles }
    {
        self.roles
            .iter()
            .find(|role| role.name.bytes() == name.bytes())
    }

    /// The tablespace of a name.
    pub fn tablespace_named(&self, name: &Text) -> Option<&Tablespace>
        ensures { option_copied result ≡ find (tablespace_is name.now) self.now.tablespaces }
    {
        self.tablespaces
            .iter()
            .find(|tablespace| tablespace.name.bytes() == name.bytes())
    }

    /// The database of a name.
    pub fn database_named(&self, name: &Text) -> Option<&Database>
        ensures { option_copied result ≡ find (database_is name.now) self.now.databases }
    {
        self.databases
            .iter()
            .find(|database| database.name.bytes() == name.bytes())
    }
}

impl Database {
    /// The number of schemas.
    pub fn schema_count(&self) -> usize
        ensures { result ≡ length self.now.schemas }
    {
        self.schemas.items().len()
    }

    /// The number of enums.
    pub fn enum_count(&self) -> usize
        ensures { result ≡ length self.now.enums }
    {
        self.enums.items().len()
    }

    /// The number of tables.
    pub fn table_count(&self) -> usize
        ensures { result ≡ length self.now.tables }
    {
        self.tables.items().len()
    }

    /// The number of indexes.
    pub fn index_count(&self) -> usize
        ensures { result ≡ length self.now.indexes }
    {
        self.indexes.items().len()
    }

    /// The number of sequences.
    pub fn sequence_count(&self) -> usize
        ensures { result ≡ length self.now.sequences }
    {
        self.sequences.items().len()
    }

    /// The enum of an OID.
    pub fn enum_type(&self, oid: u32) -> Option<&EnumType>
        ensures { option_copied result ≡ find (enum_has oid) self.now.enums }
    {
        self.enums.of_oid(oid)
    }

    /// The enum of a schema and a name.
    pub fn enum_named(&self, schema: &Text, name: &Text) -> Option<&EnumType>
        ensures { option_copied result ≡ find (enum_is schema.now name.now) self.now.enums }
    {
        self.enums.named(schema, name)
    }

    /// The table of a schema and a name.
    pub fn table_named(&self, schema: &Text, name: &Text) -> Option<&Table>
        ensures { option_copied result ≡ find (table_is schema.now name.now) self.now.tables }
    {
        self.tables.named(schema, name)
    }
}

// What may be added to a catalog. A refusal changes nothing. `OutOfMemory` comes only where the object would have been added.
ghost use Rattle.std.specs.Prelude.{◌≡◌, ◌≢◌, ◌∷◌, [], true, Ok, Err, Some, OnOk, OnErr, IfOk, IfErr, IsOk, None};
ghost use Rattle.std.specs.List.{find, position};
ghost use Rattle.catalog.specs.declared.error.CatalogError.TheVariants.{NoSuch};
ghost use Rattle.catalog.specs.Cluster.{fresh_database};
ghost use Rattle.catalog.specs.Spaces.{database_has};
ghost use Rattle.catalog.specs.Forms.{is_name, table_form, index_form};
ghost use Rattle.catalog.specs.Changes.{with_role, with_tablespace, with_database, with_connections, with_schema, with_enum, with_label, with_table, with_index, with_sequence};

use crate::causes::fits;
use crate::cluster::Catalog;
use crate::databases::Database;
use crate::enums::{EnumType, Label};
use crate::error::CatalogError;
use crate::owners::{Role, Schema, Tablespace};
use crate::references::{
    are_file_names, refusal_of_database, refusal_of_role, refusal_of_tablespace,
};
use crate::relations::{Index, Sequence, Table};

fn position_of(databases: &[Database], oid: u32) -> Option<usize>
    ensures { result ≡ position (database_has oid) databases.now }
{
    databases.iter().position(|database| database.oid == oid)
}

// The place of the database of an OID.
fn place_of(databases: &[Database], oid: u32) -> Result<usize, CatalogError>
    ensures found { IfOk result (λ place. position (database_has oid) databases.now ≡ Some place) }
    ensures missing { IfErr result (λ e. (e ≡ NoSuch) × (position (database_has oid) databases.now ≡ None)) }
{
    match position_of(databases, oid) {
        Some(place) => Ok(place),
        None => Err(CatalogError::NoSuch),
    }
}

impl Catalog {
    /// Adds a role. Its name has the form of a name.
    pub fn add_role(&mut self, role: Role) -> Result<(), CatalogError>
        requires { is_name role.name ≡ true }
        ensures ok { OnOk result (with_role self.old role ≡ Ok self.new) }
        ensures refused { IfErr result (λ e. e ≢ CatalogError.OutOfMemory → with_role self.old role ≡ Err e) }
        ensures lacking { IfErr result (λ e. e ≡ CatalogError.OutOfMemory → IsOk (with_role self.old role)) }
        ensures unchanged { OnErr result (self.new ≡ self.old) }
    {
        fits(role.oid);
        if let Some(cause) = refusal_of_role(&self.roles, &role) {
            return Err(cause);
        }
        self.roles.push(role)?;
        Ok(())
    }

    /// Adds a tablespace.
    pub fn add_tablespace(&mut self, tablespace: Tablespace) -> Result<(), CatalogError>
        requires { is_name tablespace.name ≡ true }
        ensures ok { OnOk result (with_tablespace self.old tablespace ≡ Ok self.new) }
        ensures refused { IfErr result (λ e. e ≢ CatalogError.OutOfMemory → with_tablespace self.old tablespace ≡ Err e) }
        ensures lacking { IfErr result (λ e. e ≡ CatalogError.OutOfMemory → IsOk (with_tablespace self.old tablespace)) }
        ensures unchanged { OnErr result (self.new ≡ self.old) }
    {
        fits(tablespace.oid);
        are_file_names(tablespace.location.names());
        if let Some(cause) = refusal_of_tablespace(&self.roles, &self.tablespaces, &tablespace) {
            return Err(cause);
        }
        self.tablespaces.push(tablespace)?;
        Ok(())
    }

    /// Adds a database, which holds the schema `public` of role 10 and nothing else: `Database::fresh` makes one.
    pub fn add_database(&mut self, database: Database) -> Result<(), CatalogError>
        requires name { is_name database.name ≡ true }
        requires fresh { database ≡ fresh_database database.oid database.name database.owner database.connections }
        ensures ok { OnOk result (with_database self.old database ≡ Ok self.new) }
        ensures refused { IfErr result (λ e. e ≢ CatalogError.OutOfMemory → with_database self.old database ≡ Err e) }
        ensures lacking { IfErr result (λ e. e ≡ CatalogError.OutOfMemory → IsOk (with_database self.old database)) }
        ensures unchanged { OnErr result (self.new ≡ self.old) }
    {
        fits(database.oid);
        if let Some(cause) = refusal_of_database(&self.roles, &self.databases, &database) {
            return Err(cause);
        }
        self.databases.push(database)?;
        Ok(())
    }

    /// Allows or forbids connections to a database. Takes no memory.
    pub fn set_connections(&mut self, database: u32, on: bool) -> Result<(), CatalogError>
        ensures ok { OnOk result (with_connections self.old database on ≡ Ok self.new) }
        ensures refused { IfErr result (λ e. with_connections self.old database on ≡ Err e) }
        ensures unchanged { OnErr result (self.new ≡ self.old) }
    {
        let place = place_of(&self.databases, database)?;
        let found = &mut self.databases[place];
        found.set_connections(on);
        Ok(())
    }

    /// Adds a schema to a database.
    pub fn add_schema(&mut self, database: u32, schema: Schema) -> Result<(), CatalogError>
        requires { is_name schema.name ≡ true }
        ensures ok { OnOk result (with_schema self.old database schema ≡ Ok self.new) }
        ensures refused { IfErr result (λ e. e ≢ CatalogError.OutOfMemory → with_schema self.old database schema ≡ Err e) }
        ensures lacking { IfErr result (λ e. e ≡ CatalogError.OutOfMemory → IsOk (with_schema self.old database schema)) }
        ensures unchanged { OnErr result (self.new ≡ self.old) }
    {
        let place = place_of(&self.databases, database)?;
        let found = &mut self.databases[place];
        found.add_schema(&self.roles, schema)?;
        Ok(())
    }

    /// Adds an enum with its labels to a database.
    pub fn add_enum(&mut self, database: u32, kind: EnumType) -> Result<(), CatalogError>
        requires { is_name kind.name ≡ true }
        ensures ok { OnOk result (with_enum self.old database kind ≡ Ok self.new) }
        ensures refused { IfErr result (λ e. e ≢ CatalogError.OutOfMemory → with_enum self.old database kind ≡ Err e) }
        ensures lacking { IfErr result (λ e. e ≡ CatalogError.OutOfMemory → IsOk (with_enum self.old database kind)) }
        ensures unchanged { OnErr result (self.new ≡ self.old) }
    {
        let place = place_of(&self.databases, database)?;
        let found = &mut self.databases[place];
        found.add_enum(&self.roles, kind)?;
        Ok(())
    }

    /// Adds a label behind those of the enum of an OID.
    pub fn add_label(&mut self, database: u32, kind: u32, label: Label) -> Result<(), CatalogError>
        ensures ok { OnOk result (with_label self.old database kind label ≡ Ok self.new) }
        ensures refused { IfErr result (λ e. e ≢ CatalogError.OutOfMemory → with_label self.old database kind label ≡ Err e) }
        ensures lacking { IfErr result (λ e. e ≡ CatalogError.OutOfMemory → IsOk (with_label self.old database kind label)) }
        ensures unchanged { OnErr result (self.new ≡ self.old) }
    {
        let place = place_of(&self.databases, database)?;
        let found = &mut self.databases[place];
        found.add_label(kind, label)?;
        Ok(())
    }

    /// Adds a table to a database. A dropped column has the empty name, no missing value, and a length of -1 or 0 to
    /// 32767.
    pub fn add_table(&mut self, database: u32, table: Table) -> Result<(), CatalogError>
        requires { table_form table ≡ true }
        ensures ok { OnOk result (with_table self.old database table ≡ Ok self.new) }
        ensures refused { IfErr result (λ e. e ≢ CatalogError.OutOfMemory → with_table self.old database table ≡ Err e) }
        ensures lacking { IfErr result (λ e. e ≡ CatalogError.OutOfMemory → IsOk (with_table self.old database table)) }
        ensures unchanged { OnErr result (self.new ≡ self.old) }
    {
        let place = place_of(&self.databases, database)?;
        let found = &mut self.databases[place];
        found.add_table(&self.roles, &self.tablespaces, table)?;
        Ok(())
    }

    /// Adds an index, over at least one column, to a database.
    pub fn add_index(&mut self, database: u32, index: Index) -> Result<(), CatalogError>
        requires { index_form index ≡ true }
        ensures ok { OnOk result (with_index self.old database index ≡ Ok self.new) }
        ensures refused { IfErr result (λ e. e ≢ CatalogError.OutOfMemory → with_index self.old database index ≡ Err e) }
        ensures lacking { IfErr result (λ e. e ≡ CatalogError.OutOfMemory → IsOk (with_index self.old database index)) }
        ensures unchanged { OnErr result (self.new ≡ self.old) }
    {
        let place = place_of(&self.databases, database)?;
        let found = &mut self.databases[place];
        found.add_index(&self.tablespaces, index)?;
        Ok(())
    }

    /// Adds a sequence to a database.
    pub fn add_sequence(&mut self, database: u32, sequence: Sequence) -> Result<(), CatalogError>
        requires { is_name sequence.name ≡ true }
        ensures ok { OnOk result (with_sequence self.old database sequence ≡ Ok self.new) }
        ensures refused { IfErr result (λ e. e ≢ CatalogError.OutOfMemory → with_sequence self.old database sequence ≡ Err e) }
        ensures lacking { IfErr result (λ e. e ≡ CatalogError.OutOfMemory → IsOk (with_sequence self.old database sequence)) }
        ensures unchanged { OnErr result (self.new ≡ self.old) }
    {
        let place = place_of(&self.databases, database)?;
        let found = &mut self.databases[place];
        found.add_sequence(&self.roles, sequence)?;
        Ok(())
    }
}

// Why a database refuses an object.
ghost use Rattle.std.specs.Prelude.{◌≡◌, ◌||◌, ◌&&◌, true, not};
ghost use Rattle.std.specs.Option.{option_copied};
ghost use Rattle.std.specs.List.{find};
ghost use Rattle.catalog.specs.Lists.{are_distinct};
ghost use Rattle.catalog.specs.Spaces.{relation_oids, type_oids, label_oids, table_oids, relation_names, type_names, table_name, table_files, file_places, enum_has, table_has};
ghost use Rattle.catalog.specs.Forms.{enum_stands, table_stands, sequence_stands, has_role, has_schema, same_column};
ghost use Rattle.catalog.specs.Refusals.{schema_refusal, enum_refusal, label_refusal, label_refusal_in, table_refusal, index_refusal, sequence_refusal, oid_taken, oids_taken, name_taken, file_taken, files_taken};

use crate::causes::{first_cause, is_system_number};
use crate::columns_of::{column_names_differ, columns_stand, keys_stand};
use crate::databases::Database;
use crate::enums::{EnumType, Label};
use crate::error::CatalogError;
use crate::labels::{has_long_label, has_text, is_long, label_texts_differ};
use crate::lists::{DEFAULT_TABLESPACE, either};
use crate::owners::{Role, Schema, Tablespace};
use crate::references::{has_role, has_tablespace};
use crate::relations::{Index, Sequence, Table};
use fs_model::Text;

// The columns that a table may have, `MaxHeapAttributeNumber` of `access/htup_details.h`, and the keys that an index
// may have, `INDEX_MAX_KEYS` of `pg_config_manual.h`.
const TABLE_COLUMNS: usize = 1600;

const INDEX_KEYS: usize = 32;

impl Database {
    pub(crate) fn refusal_of_schema(&self, roles: &[Role], schema: &Schema) -> Option<CatalogError>
        ensures { result ≡ schema_refusal roles.now self.now schema.now }
    {
        let owner = has_role(roles, schema.owner);
        let name_taken = self.has_schema_named(&schema.name);
        first_cause(!owner, false, false, name_taken, false)
    }

    // Whether the owner and the schema of an object are there.
    fn stands_in(&self, roles: &[Role], owner: u32, schema: &Text) -> bool
        ensures { result ≡ (has_role roles.now owner && has_schema self.now.schemas schema.now) }
    {
        has_role(roles, owner) && self.schemas.stand(schema)
    }

    fn is_relation_taken(&self, oid: u32) -> bool
        ensures { result ≡ oid_taken oid (relation_oids self.now) }
    {
        either(is_system_number(oid), self.has_relation(oid))
    }

    fn is_type_taken(&self, oid: u32) -> bool
        ensures { result ≡ oid_taken oid (type_oids self.now) }
    {
        either(is_system_number(oid), self.has_type(oid))
    }

    fn is_label_taken(&self, oid: u32) -> bool
        ensures { result ≡ oid_taken oid (label_oids self.now) }
    {
        either(is_system_number(oid), self.has_label(oid))
    }

    fn is_file_taken(&self, tablespace: u32, number: u32) -> bool
        ensures { result ≡ file_taken (record { tablespace = tablespace; number = number }) (file_places self.now) }
    {
        either(is_system_number(number), self.has_file(tablespace, number))
    }

    pub(crate) fn refusal_of_enum(&self, roles: &[Role], kind: &EnumType) -> Option<CatalogError>
        ensures { result ≡ enum_refusal roles.now self.now kind.now }
    {
        let labels = kind.labels.items();
        let stands = self.stands_in(roles, kind.owner, &kind.schema);
        let too_many = has_long_label(labels);
        let oid_taken = either(self.is_type_taken(kind.oid), self.are_labels_taken(labels));
        let differ = label_texts_differ(labels);
        let name_taken = either(self.has_type_named(&kind.schema, &kind.name), !differ);
        first_cause(!stands, too_many, oid_taken, name_taken, false)
    }

    // Why a label can't stand behind those of an enum.
    fn refusal_in_enum(&self, kind: &EnumType, label: &Label) -> Option<CatalogError>
        ensures { result ≡ label_refusal_in self.now label.now (Some kind.now) }
    {
        let too_many = is_long(label);
        let oid_taken = self.is_label_taken(label.oid);
        let name_taken = has_text(kind.labels.items(), label);
        first_cause(false, too_many, oid_taken, name_taken, false)
    }

    pub(crate) fn refusal_of_label(&self, kind: u32, label: &Label) -> Option<CatalogError>
        ensures { result ≡ label_refusal self.now kind label.now }
    {
        match self.enum_type(kind) {
            None => Some(CatalogError::NoSuch),
            Some(found) => self.refusal_in_enum(found, label),
        }
    }

    fn table_stands(&self, roles: &[Role], tablespaces: &[Tablespace], table: &Table) -> bool
        ensures { result ≡ table_stands roles.now tablespaces.now self.now table.now }
    {
        let owner = has_role(roles, table.owner);
        let tablespace = has_tablespace(tablespaces, table.tablespace);
        let schema = self.schemas.stand(&table.schema);
        let columns = columns_stand(&self.enums, table.columns.items());
        owner && tablespace && schema && columns
    }

    // Whether an OID of a table, of its toast table or of that one's index can't be given.
    fn are_table_oids_taken(&self, table: &Table) -> bool
        ensures { result ≡ oids_taken (table_oids table.now) (relation_oids self.now) }
    {
        match &table.toast {
            None => self.are_relations_taken(&[table.oid]),
            Some(toast) => self.are_relations_taken(&[table.oid, toast.oid, toast.index_oid]),
        }
    }

    fn is_table_name_taken(&self, table: &Table) -> bool
        ensures { result ≡ (name_taken (table_name table.now) (relation_names self.now) || (name_taken (table_name table.now) (type_names self.now) || not (are_distinct same_column table.now.columns))) }
    {
        let relation = self.has_relation_named(&table.schema, &table.name);
        let kind = self.has_type_named(&table.schema, &table.name);
        let differ = column_names_differ(table.columns.items());
        either(relation, either(kind, !differ))
    }

    // Whether a file number of a table, of its toast table or of that one's index can't be given.
    fn are_table_files_taken(&self, table: &Table) -> bool
        ensures { result ≡ files_taken table.now.tablespace (table_files table.now) (file_places self.now) }
    {
        match &table.toast {
            None => self.are_files_taken(table.tablespace, &[table.file]),
            Some(toast) => self.are_files_taken(
                table.tablespace,
                &[table.file, toast.file, toast.index_file],
            ),
        }
    }

    // The names of the columns are compared in pairs, and only once there are few enough.
    #[tactic(auto, unfolding(crate::specs::Refusals::first_cause))]
    pub(crate) fn refusal_of_table(
        &self,
        roles: &[Role],
        tablespaces: &[Tablespace],
        table: &Table,
    ) -> Option<CatalogError>
        ensures { result ≡ table_refusal roles.now tablespaces.now self.now table.now }
    {
        if !self.table_stands(roles, tablespaces, table) {
            return Some(CatalogError::NoSuch);
        }
        if table.columns.items().len() > TABLE_COLUMNS {
            return Some(CatalogError::TooMany);
        }
        let oid_taken = either(
            self.are_table_oids_taken(table),
            self.is_type_taken(table.row_type),
        );
        let name_taken = self.is_table_name_taken(table);
        let file_taken = self.are_table_files_taken(table);
        first_cause(false, false, oid_taken, name_taken, file_taken)
    }

    // Why an index can't stand over a table.
    fn refusal_over(
        &self,
        tablespaces: &[Tablespace],
        table: &Table,
        index: &Index,
    ) -> Option<CatalogError>
        requires { find (table_has index.now.table) self.now.tables ≡ Some table.now }
        ensures { result ≡ index_refusal tablespaces.now self.now index.now }
    {
        let tablespace = has_tablespace(tablespaces, index.tablespace);
        let keys = keys_stand(table.columns.items(), index.keys.items());
        let stands = tablespace && keys;
        let too_many = index.keys.items().len() > INDEX_KEYS;
        let oid_taken = self.is_relation_taken(index.oid);
        let name_taken = self.has_relation_named(&table.schema, &index.name);
        let file_taken = self.is_file_taken(index.tablespace, index.file);
        first_cause(!stands, too_many, oid_taken, name_taken, file_taken)
    }

    pub(crate) fn refusal_of_index(
        &self,
        tablespaces: &[Tablespace],
        index: &Index,
    ) -> Option<CatalogError>
        ensures { result ≡ index_refusal tablespaces.now self.now index.now }
    {
        match self.table(index.table) {
            None => Some(CatalogError::NoSuch),
            Some(table) => self.refusal_over(tablespaces, table, index),
        }
    }

    pub(crate) fn refusal_of_sequence(
        &self,
        roles: &[Role],
        sequence: &Sequence,
    ) -> Option<CatalogError>
        ensures { result ≡ sequence_refusal roles.now self.now sequence.now }
    {
        let stands = self.stands_in(roles, sequence.owner, &sequence.schema);
        let oid_taken = self.is_relation_taken(sequence.oid);
        let name_taken = self.has_relation_named(&sequence.schema, &sequence.name);
        let file_taken = self.is_file_taken(DEFAULT_TABLESPACE, sequence.file);
        first_cause(!stands, false, oid_taken, name_taken, file_taken)
    }
}

// Which OIDs, names and file numbers are in use in a database.
ghost use Rattle.std.specs.Prelude.{◌≡◌, ◌||◌, not, nat_eq, bytes_eq, map};
ghost use Rattle.std.specs.List.{list_any};
ghost use Rattle.catalog.specs.Lists.{are_distinct, in_use};
ghost use Rattle.catalog.specs.Spaces.{relation_oids, type_oids, label_oids, schema_names, schema_of, index_name, same_name, relation_names, type_names, same_place, place_in, file_places};
ghost use Rattle.catalog.specs.Refusals.{oids_taken, files_taken, is_system_number};

use crate::causes::{are_distinct, has_system_number};
use crate::databases::Database;
use crate::enums::Label;
use crate::labels::{label_oids_differ, labels_have_system_oid};
use crate::lists::either;
use crate::relations::Index;
use fs_model::Text;
use object_places::object_at;

impl Database {
    #[tactic(auto, using(crate::proofs::SpaceLemmas::relation_oid))]
    pub(crate) fn has_relation(&self, oid: u32) -> bool
        ensures { result ≡ list_any (nat_eq oid) (relation_oids self.now) }
    {
        let table = self.tables.have_oid(oid);
        let index = self.indexes.have_oid(oid);
        let sequence = self.sequences.have_oid(oid);
        either(table, either(index, sequence))
    }

    #[tactic(auto, using(crate::proofs::SpaceLemmas::type_oid))]
    pub(crate) fn has_type(&self, oid: u32) -> bool
        ensures { result ≡ list_any (nat_eq oid) (type_oids self.now) }
    {
        let kind = self.enums.have_oid(oid);
        let table = self.tables.have_row_type(oid);
        either(kind, table)
    }

    #[tactic(auto, using(crate::proofs::SpaceLemmas::label_oid))]
    pub(crate) fn has_label(&self, oid: u32) -> bool
        ensures { result ≡ list_any (nat_eq oid) (label_oids self.now) }
    {
        self.enums.have_label(oid)
    }

    #[tactic(auto, using(crate::proofs::SpaceLemmas::schema_name))]
    pub(crate) fn has_schema_named(&self, name: &Text) -> bool
        ensures { result ≡ list_any (bytes_eq name.now) (schema_names self.now) }
    {
        self.schemas.have_name(name)
    }

    // Whether the table of an OID is in a schema.
    fn is_in_schema(&self, oid: u32, schema: &Text) -> bool
        ensures { result ≡ bytes_eq schema.now (schema_of self.now.tables oid) }
    {
        match self.table(oid) {
            Some(table) => schema.bytes() == table.schema.bytes(),
            None => schema.bytes().is_empty(),
        }
    }

    fn index_is_named(&self, index: &Index, schema: &Text, name: &Text) -> bool
        ensures { result ≡ same_name (record { schema = schema.now; name = name.now }) (index_name self.now.tables index.now) }
    {
        name.bytes() == index.name.bytes() && self.is_in_schema(index.table, schema)
    }

    fn has_index_named(&self, schema: &Text, name: &Text) -> bool
        ensures { result ≡ list_any (λ i. same_name (record { schema = schema.now; name = name.now }) (index_name self.now.tables i)) self.now.indexes }
    {
        match object_at(self.indexes.items(), self.index_names.get(schema, name)) {
            Some(index) => self.index_is_named(index, schema, name),
            None => false,
        }
    }

    #[tactic(auto, using(crate::proofs::SpaceLemmas::relation_name))]
    pub(crate) fn has_relation_named(&self, schema: &Text, name: &Text) -> bool
        ensures { result ≡ list_any (same_name (record { schema = schema.now; name = name.now })) (relation_names self.now) }
    {
        let table = self.tables.have_name(schema, name);
        let index = self.has_index_named(schema, name);
        let sequence = self.sequences.have_name(schema, name);
        either(table, either(index, sequence))
    }

    #[tactic(auto, using(crate::proofs::SpaceLemmas::type_name))]
    pub(crate) fn has_type_named(&self, schema: &Text, name: &Text) -> bool
        ensures { result ≡ list_any (same_name (record { schema = schema.now; name = name.now })) (type_names self.now) }
    {
        let kind = self.enums.have_name(schema, name);
        let table = self.tables.have_name(schema, name);
        either(kind, table)
    }

    #[tactic(auto, using(crate::proofs::SpaceLemmas::file_place))]
    pub(crate) fn has_file(&self, tablespace: u32, number: u32) -> bool
        ensures { result ≡ list_any (same_place (place_in tablespace number)) (file_places self.now) }
    {
        let table = self.tables.have_file(tablespace, number);
        let index = self.indexes.have_file(tablespace, number);
        let sequence = self.sequences.have_file(tablespace, number);
        either(table, either(index, sequence))
    }

    // Whether one of the OIDs is a relation's.
    fn has_relation_of(&self, oids: &[u32]) -> bool
        ensures { result ≡ in_use nat_eq oids.now (relation_oids self.now) }
    {
        oids.iter().any(|oid| self.has_relation(*oid))
    }

    // Whether one of the labels has the OID of one that stands.
    fn has_label_of(&self, labels: &[Label]) -> bool
        ensures { result ≡ list_any (λ l. list_any (nat_eq l.oid) (label_oids self.now)) labels.now }
    {
        labels.iter().any(|label| self.has_label(label.oid))
    }

    // Whether one of the file numbers is in use in a tablespace.
    fn has_file_of(&self, tablespace: u32, numbers: &[u32]) -> bool
        ensures { result ≡ list_any (λ n. list_any (same_place (place_in tablespace n)) (file_places self.now)) numbers.now }
    {
        numbers
            .iter()
            .any(|number| self.has_file(tablespace, *number))
    }

    pub(crate) fn are_relations_taken(&self, oids: &[u32]) -> bool
        ensures { result ≡ oids_taken oids.now (relation_oids self.now) }
    {
        let system = has_system_number(oids);
        let differ = are_distinct(oids);
        let used = self.has_relation_of(oids);
        either(system, either(!differ, used))
    }

    #[tactic(auto, using(crate::proofs::SpaceLemmas::labels_taken))]
    pub(crate) fn are_labels_taken(&self, labels: &[Label]) -> bool
        ensures { result ≡ oids_taken (map (λ l. l.oid) labels.now) (label_oids self.now) }
    {
        let system = labels_have_system_oid(labels);
        let differ = label_oids_differ(labels);
        let used = self.has_label_of(labels);
        either(system, either(!differ, used))
    }

    pub(crate) fn are_files_taken(&self, tablespace: u32, numbers: &[u32]) -> bool
        ensures { result ≡ files_taken tablespace numbers.now (file_places self.now) }
    {
        let system = has_system_number(numbers);
        let differ = are_distinct(numbers);
        let used = self.has_file_of(tablespace, numbers);
        either(system, either(!differ, used))
    }
}

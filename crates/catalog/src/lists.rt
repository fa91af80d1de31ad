// Tests of the objects of a database.
ghost use Rattle.std.specs.Prelude.{◌≡◌, ◌||◌, nat_eq, bytes_eq};
ghost use Rattle.std.specs.List.{list_any};
ghost use Rattle.catalog.specs.Forms.{schema_is};
ghost use Rattle.catalog.specs.Spaces.{table_has, enum_has, table_oids, enum_label_oids, SchemaName, same_name, enum_name, table_name, sequence_name, same_place, place_in, table_places, index_place, sequence_place};

use crate::enums::{EnumType, Label};
use crate::owners::Schema;
use crate::relations::{Index, Sequence, Table};
use fs_model::Text;

// The tablespace in the cluster's own directory, `DEFAULTTABLESPACE_OID` of `catalog/pg_tablespace.dat`.
pub(crate) const DEFAULT_TABLESPACE: u32 = 1663;

pub(crate) fn either(first: bool, second: bool) -> bool
    ensures { result ≡ (first || second) }
{
    first || second
}

pub(crate) fn table_is_of(table: &Table, oid: u32) -> bool
    ensures { result ≡ table_has oid table.now }
{
    table.oid == oid
}

// Whether a table, its toast table or that one's index has an OID.
pub(crate) fn table_has_oid(table: &Table, oid: u32) -> bool
    ensures { result ≡ list_any (nat_eq oid) (table_oids table.now) }
{
    match &table.toast {
        None => oid == table.oid,
        Some(toast) => oid == table.oid || oid == toast.oid || oid == toast.index_oid,
    }
}

#[tactic(auto, using(crate::proofs::SpaceLemmas::enum_label))]
pub(crate) fn enum_has_label(kind: &EnumType, oid: u32) -> bool
    ensures { result ≡ list_any (nat_eq oid) (enum_label_oids kind.now) }
{
    labels_have_oid(kind.labels.items(), oid)
}

fn labels_have_oid(labels: &[Label], oid: u32) -> bool
    ensures { result ≡ list_any (λ l. nat_eq oid l.oid) labels.now }
{
    labels.iter().any(|label| oid == label.oid)
}

pub(crate) fn is_named(schema: &Text, name: &Text, other_schema: &Text, other_name: &Text) -> bool
    ensures { result ≡ same_name (record { schema = schema.now; name = name.now }) (record { schema = other_schema.now; name = other_name.now }) }
{
    schema.bytes() == other_schema.bytes() && name.bytes() == other_name.bytes()
}

// Whether a table, its toast table or that one's index has a file number in a tablespace.
pub(crate) fn table_has_file(table: &Table, tablespace: u32, number: u32) -> bool
    ensures { result ≡ list_any (same_place (place_in tablespace number)) (table_places table.now) }
{
    match &table.toast {
        None => tablespace == table.tablespace && number == table.file,
        Some(toast) => {
            tablespace == table.tablespace
                && (number == table.file || number == toast.file || number == toast.index_file)
        }
    }
}

pub(crate) fn index_has_file(index: &Index, tablespace: u32, number: u32) -> bool
    ensures { result ≡ same_place (place_in tablespace number) (index_place index.now) }
{
    tablespace == index.tablespace && number == index.file
}

pub(crate) fn sequence_has_file(sequence: &Sequence, tablespace: u32, number: u32) -> bool
    ensures { result ≡ same_place (place_in tablespace number) (sequence_place sequence.now) }
{
    tablespace == DEFAULT_TABLESPACE && number == sequence.file
}

pub(crate) fn enum_is_of(kind: &EnumType, oid: u32) -> bool
    ensures { result ≡ enum_has oid kind.now }
{
    kind.oid == oid
}

pub(crate) fn has_name_of(schema: &Schema, name: &Text) -> bool
    ensures { result ≡ schema_is name.now schema.now }
{
    schema.name.bytes() == name.bytes()
}

pub(crate) fn is_name_of(schema: &Schema, name: &Text) -> bool
    ensures { result ≡ bytes_eq name.now schema.now.name }
{
    name.bytes() == schema.name.bytes()
}

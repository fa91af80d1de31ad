// Where the tables of a database stand, by what no two of them may share.
ghost use Rattle.std.specs.Prelude.{◌≡◌, ℕ, List, ◌&&◌, true, false, None, Some, OnOk, nat_eq, bytes_eq};
ghost use Rattle.std.specs.List.{list_any};
ghost use Rattle.object_places.specs.Places.{number_place, name_place, file_place};
ghost use Rattle.catalog.specs.Spaces.{table_oids, table_files};

use crate::relations::Table;
use object_places::{FilePlaces, NamePlaces, NumberPlaces};
use std::alloc::{AllocError, Global};

#[derive(Drop)]
pub(crate) struct TablePlaces {
    // by the OIDs of a table, of its toast table and of that one's index
    pub(crate) oids: NumberPlaces,
    pub(crate) row_types: NumberPlaces,
    pub(crate) names: NamePlaces,
    // by the file numbers of the same three
    pub(crate) files: FilePlaces,
}

fn put_oids(oids: &mut NumberPlaces, table: &Table, place: usize) -> Result<(), AllocError>
    ensures others { (k : ℕ) → list_any (nat_eq k) (table_oids table.now) ≡ false → number_place oids.new k ≡ number_place oids.old k }
    ensures placed { OnOk result ((k : ℕ) → list_any (nat_eq k) (table_oids table.now) ≡ true → number_place oids.new k ≡ Some place) }
{
    match &table.toast {
        None => oids.put_each(&[table.oid], place),
        Some(toast) => oids.put_each(&[table.oid, toast.oid, toast.index_oid], place),
    }
}

fn put_files(files: &mut FilePlaces, table: &Table, place: usize) -> Result<(), AllocError>
    ensures others { (t k : ℕ) → (nat_eq t table.now.tablespace && list_any (nat_eq k) (table_files table.now)) ≡ false → file_place files.new t k ≡ file_place files.old t k }
    ensures placed { OnOk result ((t k : ℕ) → (nat_eq t table.now.tablespace && list_any (nat_eq k) (table_files table.now)) ≡ true → file_place files.new t k ≡ Some place) }
{
    let tablespace = table.tablespace;
    match &table.toast {
        None => files.put_each(tablespace, &[table.file], place),
        Some(toast) => {
            files.put_each(
                tablespace,
                &[table.file, toast.file, toast.index_file],
                place,
            )
        }
    }
}

impl TablePlaces {
    // Takes no memory.
    pub(crate) fn new(alloc: Global) -> TablePlaces {
        TablePlaces {
            oids: NumberPlaces::new(alloc),
            row_types: NumberPlaces::new(alloc),
            names: NamePlaces::new(alloc),
            files: FilePlaces::new(alloc),
        }
    }

    // Notes the place of a table. Other keys than the table's lead where they did, also where memory lacked.
    pub(crate) fn put(&mut self, table: &Table, place: usize) -> Result<(), AllocError>
        ensures oids { (k : ℕ) → list_any (nat_eq k) (table_oids table.now) ≡ false → number_place self.new.oids k ≡ number_place self.old.oids k }
        ensures row_types { (k : ℕ) → nat_eq k table.now.row_type ≡ false → number_place self.new.row_types k ≡ number_place self.old.row_types k }
        ensures names { (s k : List ℕ) → (bytes_eq s table.now.schema && bytes_eq k table.now.name) ≡ false → name_place self.new.names s k ≡ name_place self.old.names s k }
        ensures files { (t k : ℕ) → (nat_eq t table.now.tablespace && list_any (nat_eq k) (table_files table.now)) ≡ false → file_place self.new.files t k ≡ file_place self.old.files t k }
        ensures oids_placed { OnOk result ((k : ℕ) → list_any (nat_eq k) (table_oids table.now) ≡ true → number_place self.new.oids k ≡ Some place) }
        ensures row_type_placed { OnOk result ((k : ℕ) → nat_eq k table.now.row_type ≡ true → number_place self.new.row_types k ≡ Some place) }
        ensures name_placed { OnOk result ((s k : List ℕ) → (bytes_eq s table.now.schema && bytes_eq k table.now.name) ≡ true → name_place self.new.names s k ≡ Some place) }
        ensures files_placed { OnOk result ((t k : ℕ) → (nat_eq t table.now.tablespace && list_any (nat_eq k) (table_files table.now)) ≡ true → file_place self.new.files t k ≡ Some place) }
    {
        put_oids(&mut self.oids, table, place)?;
        self.row_types.put(table.row_type, place)?;
        self.names.put(&table.schema, &table.name, place)?;
        put_files(&mut self.files, table, place)
    }
}

// CREATE TABLE.
ghost use Rattle.std.specs.Prelude.{◌≡◌, ◌≢◌, true, Ok, Err, Some, None, OnOk, OnErr, IfErr, MatchOption};
ghost use Rattle.std.specs.List.{list_all};
ghost use Rattle.catalog.specs.declared.error.CatalogError.TheVariants.{OutOfMemory};
ghost use Rattle.catalog.specs.Forms.{is_name};
ghost use Rattle.catalog.specs.Changes.{with_table};
ghost use Rattle.dump_grammar.specs.declared.error.TextCause.TheVariants as causes;
ghost use Rattle.dump_grammar.specs.Spelling.{is_column};
ghost use Rattle.dump_rules.specs.Rules.{found, role_oid, tablespace_oid, columns_of, database_of, toast_of, table_numbers, with_numbers, without_toast, without_table, create_table};
ghost use Rattle.dump_rules.specs.Causes.{state_of};
ghost use Rattle.dump_rules.specs.Made.{table_made};

use crate::columns::first_columns;
use crate::named::{connected_database, role_oid, tablespace_oid};
use crate::numbers::{Numbers, Session};
use crate::sessions::cause_of;
use catalog::{Catalog, CatalogError, Columns, Table, Toast};
use dump_grammar::{ColumnTexts, NextKind, TextCause};
use fs_model::Text;
use std::alloc::Global;

// The numbers of a toast table, where the first is set.
fn toast_of(
    oid: Option<u32>,
    file: Option<u32>,
    index_oid: Option<u32>,
    index_file: Option<u32>,
) -> Option<Option<Toast>>
    ensures { result ≡ toast_of oid file index_oid index_file }
{
    match (oid, file, index_oid, index_file) {
        (None, _, _, _) => Some(None),
        (Some(oid), Some(file), Some(index_oid), Some(index_file)) => Some(Some(Toast {
            oid,
            file,
            index_oid,
            index_file,
        })),
        _ => None,
    }
}

// The numbers that a table takes.
#[derive(Clone, Copy)]
struct Taken {
    row_type: u32,
    oid: u32,
    file: u32,
    toast: Option<Toast>,
}

fn numbers_of(numbers: &Numbers) -> Option<Taken>
    ensures { MatchOption result (table_numbers numbers.now ≡ None) (λ t. table_numbers numbers.now ≡ Some (record { row_type = t.row_type; oid = t.oid; file = t.file; toast = t.toast })) }
{
    let toast = toast_of(
        numbers.toast,
        numbers.toast_file,
        numbers.toast_index,
        numbers.toast_index_file,
    );
    match (numbers.type_oid, numbers.table, numbers.table_file, toast) {
        (Some(row_type), Some(oid), Some(file), Some(toast)) => Some(Taken {
            row_type,
            oid,
            file,
            toast,
        }),
        _ => None,
    }
}

#[tactic(auto, using(crate::proofs::ColumnLemmas::forms))]
fn add_table(
    alloc: Global,
    catalog: &mut Catalog,
    connected: Option<u32>,
    taken: Taken,
    schema: Text,
    name: Text,
    owner: &Text,
    tablespace: &Text,
    columns: &ColumnTexts,
) -> Result<(), CatalogError>
    requires name { is_name name ≡ true }
    requires columns { list_all is_column columns.now ≡ true }
    ensures ok { OnOk result (table_made catalog.old connected (record { row_type = taken.row_type; oid = taken.oid; file = taken.file; toast = taken.toast }) schema name owner.now tablespace.now columns.now ≡ Ok catalog.new) }
    ensures refused { IfErr result (λ e. e ≢ OutOfMemory → table_made catalog.old connected (record { row_type = taken.row_type; oid = taken.oid; file = taken.file; toast = taken.toast }) schema name owner.now tablespace.now columns.now ≡ Err e) }
    ensures unchanged { OnErr result (catalog.new ≡ catalog.old) }
{
    let found = connected_database(catalog, connected);
    let owned = role_oid(catalog, owner);
    let spaced = tablespace_oid(catalog, tablespace);
    match (found, owned, spaced) {
        (Some(database), Some(owner), Some(tablespace)) => {
            match first_columns(alloc, database, columns)? {
                None => Err(CatalogError::NoSuch),
                Some(columns) => {
                    let database = database.oid;
                    let table = Table {
                        oid: taken.oid,
                        row_type: taken.row_type,
                        schema,
                        name,
                        owner,
                        tablespace,
                        file: taken.file,
                        toast: taken.toast,
                        columns,
                    };
                    catalog.add_table(database, table)
                }
            }
        }
        _ => Err(CatalogError::NoSuch),
    }
}

impl Session {
    // Forgets the numbers that a table took.
    fn take_table(&mut self, toast: Option<Toast>)
        ensures { self.new ≡ without_table toast self.old }
    {
        self.take(NextKind::TypeOid);
        self.take(NextKind::Table);
        self.take(NextKind::TableFile);
        self.take_toast(toast);
    }

    fn take_toast(&mut self, toast: Option<Toast>)
        ensures { self.new ≡ with_numbers self.old (without_toast toast self.old.numbers) }
    {
        if toast.is_some() {
            self.take(NextKind::Toast);
            self.take(NextKind::ToastFile);
            self.take(NextKind::ToastIndex);
            self.take(NextKind::ToastIndexFile);
        }
    }
}

pub(crate) fn create_table(
    alloc: Global,
    catalog: &mut Catalog,
    session: &mut Session,
    schema: Text,
    name: Text,
    owner: &Text,
    tablespace: &Text,
    columns: ColumnTexts,
) -> Result<(), TextCause>
    requires name { is_name name ≡ true }
    requires columns { list_all is_column columns ≡ true }
    ensures ok { OnOk result (create_table (state_of catalog.old session.old) schema name owner.now tablespace.now columns ≡ Ok (state_of catalog.new session.new)) }
    ensures refused { IfErr result (λ e. e ≢ causes.OutOfMemory → create_table (state_of catalog.old session.old) schema name owner.now tablespace.now columns ≡ Err e) }
    ensures unchanged { OnErr result ((catalog.new ≡ catalog.old) × (session.new ≡ session.old)) }
    ensures memory { IfErr result (λ e. e ≢ causes.Catalog OutOfMemory) }
{
    let connected = session.connected;
    match numbers_of(&session.numbers) {
        None => Err(TextCause::MissingOid),
        Some(taken) => {
            match add_table(
                alloc, catalog, connected, taken, schema, name, owner, tablespace, &columns,
            ) {
                Err(error) => Err(cause_of(error)),
                Ok(()) => {
                    session.take_table(taken.toast);
                    Ok(())
                }
            }
        }
    }
}

// CREATE INDEX.
ghost use Rattle.std.specs.Prelude.{◌≡◌, ◌≢◌, ◌<◌, length, true, Ok, Err, OnOk, OnErr, IfErr};
ghost use Rattle.catalog.specs.declared.error.CatalogError.TheVariants.{OutOfMemory};
ghost use Rattle.catalog.specs.Forms.{is_name};
ghost use Rattle.catalog.specs.Changes.{with_index};
ghost use Rattle.dump_grammar.specs.declared.error.TextCause.TheVariants as causes;
ghost use Rattle.dump_grammar.specs.Spelling.{are_keys};
ghost use Rattle.dump_rules.specs.Rules.{found, tablespace_oid, table_oid, database_of, create_index};
ghost use Rattle.dump_rules.specs.Causes.{state_of};
ghost use Rattle.dump_rules.specs.Made.{index_made};

use crate::named::{connected_database, table_oid, tablespace_oid};
use crate::numbers::Session;
use crate::sessions::cause_of;
use catalog::{Catalog, CatalogError, Index, Keys};
use dump_grammar::{NextKind, TextCause};
use fs_model::Text;

fn add_index(
    catalog: &mut Catalog,
    connected: Option<u32>,
    oid: u32,
    file: u32,
    name: Text,
    schema: &Text,
    table: &Text,
    tablespace: &Text,
    keys: Keys,
) -> Result<(), CatalogError>
    requires name { is_name name ≡ true }
    requires keys { are_keys keys ≡ true }
    ensures ok { OnOk result (index_made catalog.old connected oid file name schema.now table.now tablespace.now keys ≡ Ok catalog.new) }
    ensures refused { IfErr result (λ e. e ≢ OutOfMemory → index_made catalog.old connected oid file name schema.now table.now tablespace.now keys ≡ Err e) }
    ensures unchanged { OnErr result (catalog.new ≡ catalog.old) }
{
    match connected_database(catalog, connected) {
        None => Err(CatalogError::NoSuch),
        Some(database) => {
            let over = table_oid(database, schema, table);
            let database = database.oid;
            match over {
                None => Err(CatalogError::NoSuch),
                Some(table) => match tablespace_oid(catalog, tablespace) {
                    None => Err(CatalogError::NoSuch),
                    Some(tablespace) => catalog.add_index(
                        database,
                        Index {
                            oid,
                            table,
                            name,
                            tablespace,
                            file,
                            keys,
                        },
                    ),
                },
            }
        }
    }
}

pub(crate) fn create_index(
    catalog: &mut Catalog,
    session: &mut Session,
    name: Text,
    schema: &Text,
    table: &Text,
    tablespace: &Text,
    keys: Keys,
) -> Result<(), TextCause>
    requires name { is_name name ≡ true }
    requires keys { are_keys keys ≡ true }
    ensures ok { OnOk result (create_index (state_of catalog.old session.old) name schema.now table.now tablespace.now keys ≡ Ok (state_of catalog.new session.new)) }
    ensures refused { IfErr result (λ e. e ≢ causes.OutOfMemory → create_index (state_of catalog.old session.old) name schema.now table.now tablespace.now keys ≡ Err e) }
    ensures unchanged { OnErr result ((catalog.new ≡ catalog.old) × (session.new ≡ session.old)) }
    ensures memory { IfErr result (λ e. e ≢ causes.Catalog OutOfMemory) }
{
    let connected = session.connected;
    match (session.numbers.index, session.numbers.index_file) {
        (Some(oid), Some(file)) => {
            match add_index(
                catalog, connected, oid, file, name, schema, table, tablespace, keys,
            ) {
                Err(error) => Err(cause_of(error)),
                Ok(()) => {
                    session.take(NextKind::Index);
                    session.take(NextKind::IndexFile);
                    Ok(())
                }
            }
        }
        _ => Err(TextCause::MissingOid),
    }
}

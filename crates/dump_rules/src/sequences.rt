// CREATE SEQUENCE.
ghost use Rattle.std.specs.Prelude.{◌≡◌, ◌≢◌, true, Ok, Err, OnOk, OnErr, IfErr};
ghost use Rattle.catalog.specs.declared.error.CatalogError.TheVariants.{OutOfMemory};
ghost use Rattle.catalog.specs.Forms.{is_name};
ghost use Rattle.catalog.specs.Changes.{with_sequence};
ghost use Rattle.dump_grammar.specs.declared.error.TextCause.TheVariants as causes;
ghost use Rattle.dump_rules.specs.Rules.{found, role_oid, database_of, create_sequence};
ghost use Rattle.dump_rules.specs.Causes.{state_of};
ghost use Rattle.dump_rules.specs.Made.{sequence_made};

use crate::named::{connected_database, role_oid};
use crate::numbers::Session;
use crate::sessions::cause_of;
use catalog::{Catalog, CatalogError, Sequence};
use dump_grammar::{NextKind, TextCause};
use fs_model::Text;

fn add_sequence(
    catalog: &mut Catalog,
    connected: Option<u32>,
    oid: u32,
    schema: Text,
    name: Text,
    owner: &Text,
    file: u32,
) -> Result<(), CatalogError>
    requires { is_name name ≡ true }
    ensures ok { OnOk result (sequence_made catalog.old connected oid file schema name owner.now ≡ Ok catalog.new) }
    ensures refused { IfErr result (λ e. e ≢ OutOfMemory → sequence_made catalog.old connected oid file schema name owner.now ≡ Err e) }
    ensures unchanged { OnErr result (catalog.new ≡ catalog.old) }
{
    match connected_database(catalog, connected) {
        None => Err(CatalogError::NoSuch),
        Some(database) => {
            let database = database.oid;
            match role_oid(catalog, owner) {
                None => Err(CatalogError::NoSuch),
                Some(owner) => catalog.add_sequence(
                    database,
                    Sequence {
                        oid,
                        schema,
                        name,
                        owner,
                        file,
                    },
                ),
            }
        }
    }
}

pub(crate) fn create_sequence(
    catalog: &mut Catalog,
    session: &mut Session,
    schema: Text,
    name: Text,
    owner: &Text,
) -> Result<(), TextCause>
    requires { is_name name ≡ true }
    ensures ok { OnOk result (create_sequence (state_of catalog.old session.old) schema name owner.now ≡ Ok (state_of catalog.new session.new)) }
    ensures refused { IfErr result (λ e. e ≢ causes.OutOfMemory → create_sequence (state_of catalog.old session.old) schema name owner.now ≡ Err e) }
    ensures unchanged { OnErr result ((catalog.new ≡ catalog.old) × (session.new ≡ session.old)) }
    ensures memory { IfErr result (λ e. e ≢ causes.Catalog OutOfMemory) }
{
    match (session.numbers.sequence, session.numbers.sequence_file) {
        (Some(oid), Some(file)) => {
            match add_sequence(catalog, session.connected, oid, schema, name, owner, file) {
                Err(error) => Err(cause_of(error)),
                Ok(()) => {
                    session.take(NextKind::Sequence);
                    session.take(NextKind::SequenceFile);
                    Ok(())
                }
            }
        }
        _ => Err(TextCause::MissingOid),
    }
}

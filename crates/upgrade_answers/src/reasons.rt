// Putting the reason of a refusal.
ghost use Rattle.std.specs.Prelude.{◌≡◌, true};
ghost use Rattle.fs_model.specs.Output.{SinkHasCause};
ghost use Rattle.upgrade_answers.specs.Lines.{sided, numbered, catalog_reason, differing_reason, column_reason, reason_of};
ghost use Rattle.upgrade_answers.specs.Puts.{Puts};

use crate::parts::{put_labelled, put_path, put_place, put_two};
use crate::texts::{field_text, side_text};
use compat_checks::Refusal;
use control_checks::ControlField;
use control_file::Side;
use fs_model::{Path, Sink, SinkError};

fn put_sided<K: Sink>(out: &mut K, side: Side, text: &[u8]) -> Result<(), SinkError>
    ensures told { K.told out.new ≡ K.told out.old }
    ensures appended { K.told out.old ≡ true → Puts (K.written out.old) (sided side text.now) result (K.written out.new) }
    ensures cause { SinkHasCause (K.counts out.old) (K.counts out.new) result }
{
    put_two(out, side_text(side), text)
}

fn put_numbered<K: Sink>(out: &mut K, side: Side, text: &[u8], number: u32) -> Result<(), SinkError>
    ensures told { K.told out.new ≡ K.told out.old }
    ensures appended { K.told out.old ≡ true → Puts (K.written out.old) (numbered side text.now number) result (K.written out.new) }
    ensures cause { SinkHasCause (K.counts out.old) (K.counts out.new) result }
{
    out.put(side_text(side))?;
    put_labelled(out, text, u64::from(number))
}

fn put_differing<K: Sink>(
    out: &mut K,
    field: ControlField,
    in_old: u32,
    in_new: u32,
) -> Result<(), SinkError>
    ensures told { K.told out.new ≡ K.told out.old }
    ensures appended { K.told out.old ≡ true → Puts (K.written out.old) (differing_reason field in_old in_new) result (K.written out.new) }
    ensures cause { SinkHasCause (K.counts out.old) (K.counts out.new) result }
{
    out.put(field_text(field))?;
    put_labelled(out, b" is ", u64::from(in_old))?;
    put_labelled(out, b" in old and ", u64::from(in_new))?;
    out.put(b" in new")
}

// The line of a catalog text and the number of its cause.
fn put_catalog_reason<K: Sink>(
    out: &mut K,
    side: Side,
    line: u64,
    cause: u8,
) -> Result<(), SinkError>
    ensures told { K.told out.new ≡ K.told out.old }
    ensures appended { K.told out.old ≡ true → Puts (K.written out.old) (catalog_reason side line cause) result (K.written out.new) }
    ensures cause { SinkHasCause (K.counts out.old) (K.counts out.new) result }
{
    out.put(side_text(side))?;
    put_labelled(out, b" catalog text, line ", line)?;
    put_labelled(out, b", cause ", u64::from(cause))
}

// A column's place, and what is wrong with it.
fn put_column<K: Sink>(
    out: &mut K,
    database: u32,
    table: u32,
    column: u16,
    text: &[u8],
) -> Result<(), SinkError>
    ensures told { K.told out.new ≡ K.told out.old }
    ensures appended { K.told out.old ≡ true → Puts (K.written out.old) (column_reason database table column text.now) result (K.written out.new) }
    ensures cause { SinkHasCause (K.counts out.old) (K.counts out.new) result }
{
    put_labelled(out, b"database ", u64::from(database))?;
    put_labelled(out, b", table ", u64::from(table))?;
    put_labelled(out, b", column ", u64::from(column))?;
    out.put(text)
}

fn put_tablespace<K: Sink>(out: &mut K, path: &Path) -> Result<(), SinkError>
    ensures told { K.told out.new ≡ K.told out.old }
    ensures appended { K.told out.old ≡ true → Puts (K.written out.old) (reason_of (Refusal.TablespaceDir path.now)) result (K.written out.new) }
    ensures cause { SinkHasCause (K.counts out.old) (K.counts out.new) result }
{
    out.put(b"tablespace ")?;
    put_path(out, path)
}

/// Why an upgrade is refused, without what stands before and behind it on the line.
pub(crate) fn put_reason<K: Sink>(out: &mut K, refusal: &Refusal) -> Result<(), SinkError>
    ensures told { K.told out.new ≡ K.told out.old }
    ensures appended { K.told out.old ≡ true → Puts (K.written out.old) (reason_of refusal.now) result (K.written out.new) }
    ensures cause { SinkHasCause (K.counts out.old) (K.counts out.new) result }
{
    match refusal {
        Refusal::Overlap => out.put(b"the two directories overlap"),
        Refusal::MissingDir(side) => put_sided(out, *side, b" directory is missing"),
        Refusal::MissingVersion(side) => put_sided(out, *side, b" PG_VERSION is missing"),
        Refusal::WrongVersion(side) => put_sided(out, *side, b" PG_VERSION is of another version"),
        Refusal::Running(side) => put_sided(out, *side, b" postmaster.pid is present"),
        Refusal::OldDisabled => out.put(b"old cluster is disabled"),
        Refusal::NoControl(side) => put_sided(out, *side, b" control file is missing"),
        Refusal::ControlShort(side) => put_sided(out, *side, b" control file is short"),
        Refusal::ControlCrc(side) => put_sided(out, *side, b" control file has a wrong CRC"),
        Refusal::ControlVersion(side, found) => put_numbered(
            out,
            *side,
            b" control version is ",
            *found,
        ),
        Refusal::CatalogVersion(side, found) => put_numbered(
            out,
            *side,
            b" catalog version is ",
            *found,
        ),
        Refusal::NotShutDown(side, found) => put_numbered(out, *side, b" state is ", *found),
        Refusal::BlockSize(side) => put_sided(
            out,
            *side,
            b" block or segment size is not supported",
        ),
        Refusal::ControlDiffers(field, in_old, in_new) => put_differing(
            out, *field, *in_old, *in_new,
        ),
        Refusal::Prepared(side) => put_sided(out, *side, b" has prepared transactions"),
        Refusal::CatalogText(side, line, cause) => put_catalog_reason(out, *side, *line, *cause),
        Refusal::TooMany => out.put(b"old cluster is too large"),
        Refusal::InstallUser => out.put(b"install users differ"),
        Refusal::NewRoles => out.put(b"new cluster has roles"),
        Refusal::ConnectFlag(database) => put_labelled(
            out,
            b"connections of database ",
            u64::from(*database),
        ),
        Refusal::RegColumn(database, table, column) => put_column(
            out,
            *database,
            *table,
            *column,
            b" has a reg type",
        ),
        Refusal::AclColumn(database, table, column) => put_column(
            out,
            *database,
            *table,
            *column,
            b" has type aclitem",
        ),
        Refusal::NewNotEmpty => out.put(b"new cluster is not empty"),
        Refusal::NewUsed(path) => put_place(out, b"", path, b" is in the way"),
        Refusal::TablespaceDir(path) => put_tablespace(out, path),
        Refusal::MissingFile(path) => put_place(out, b"", path, b" is missing or no file"),
        Refusal::SharedInode(path) => put_place(out, b"", path, b" is shared with the old cluster"),
        Refusal::DeviceDiffers(path) => put_place(out, b"", path, b" is on another device"),
        Refusal::ControlOldExists => out.put(b"pg_control.old is present"),
    }
}

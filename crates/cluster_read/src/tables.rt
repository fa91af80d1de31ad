// What a snapshot sees of a table, given what the control file says.
ghost use Rattle.std.specs.Prelude.{◌≡◌, true, None, IfOk};
ghost use Rattle.fs_model.specs.WellFormed.{WellFormed};
ghost use Rattle.fs_model.specs.Trail.{DecidedBy, error_of, unless_lack};
ghost use Rattle.fs_model.specs.Observed.{Observed, OnlyReads};
ghost use Rattle.toast_read.specs.Index.{IsIndexOf};
ghost use Rattle.cluster_meaning.specs.Chunks.{chunks_of_blocks};
ghost use Rattle.cluster_meaning.specs.Meaning.{toast_blocks, reading_in};
ghost use Rattle.block_rows.specs.Rows.{TellsRows};
ghost use Rattle.status_read.specs.Logs.{HasLogs};
ghost use Rattle.status_read.specs.Segments.{status_refusal};
ghost use Rattle.cluster_read.specs.Tables.{found_of, cluster_at, table_blocks};

use crate::found::{Found, relation_of, shapes_of, toast_of};
use crate::toast::index_of;
use block_rows::{Reader, Rows, Source};
use control_file::Counters;
use fork_scan::fork_rows;
use fs_model::{Fs, FsError};
use relation_files::ClusterSite;
use status_read::{Logs, read_logs};
use std::alloc::Global;
use toast_read::ToastIndex;
use visibility::Snapshot;

// The rows of a table, by the chunks of its toast table and by what is known of transactions.
fn rows_by<'x, F: Fs>(
    alloc: Global,
    fs: &mut F,
    site: &ClusterSite,
    relseg_size: u32,
    found: &'x Found<'x>,
    index: &'x ToastIndex,
    look: &'x Logs,
    snapshot: &'x Snapshot,
) -> Result<Rows, FsError>
    ensures reads { OnlyReads (record { told = F.told fs.old; firm = F.firm fs.old; depth = F.depth fs.old; trail = F.trail fs.old; counts = F.counts fs.old })
        (record { told = F.told fs.new; firm = F.firm fs.new; depth = F.depth fs.new; trail = F.trail fs.new; counts = F.counts fs.new }) (unless_lack (error_of result)) }
    ensures unrefused { F.told fs.old ≡ true → WellFormed (F.trail fs.old).present → DecidedBy None result }
    ensures rows { F.told fs.old ≡ true → WellFormed (F.trail fs.old).present → (counters : Counters) → HasLogs (F.trail fs.old).present site.now.root.now counters look.now
        → IsIndexOf index.now (chunks_of_blocks (toast_blocks (F.trail fs.old).present (cluster_at (F.trail fs.old).present site.now relseg_size counters) (found_of found.now) found.now.table.now.toast))
        → IfOk result (TellsRows (reading_in (F.trail fs.old).present (cluster_at (F.trail fs.old).present site.now relseg_size counters) (found_of found.now)) snapshot.now
        (table_blocks (F.trail fs.old).present (cluster_at (F.trail fs.old).present site.now relseg_size counters) (found_of found.now))) }
{
    let table = found.table;
    let columns = table.columns.items();
    let Ok(shapes) = shapes_of(alloc, columns) else {
        return Err(FsError::OutOfMemory);
    };
    let source = Source {
        columns,
        shapes: &shapes,
        database: found.database,
        toast: toast_of(table),
        index,
    };
    let reader = Reader {
        source,
        look,
        snapshot,
    };
    fork_rows(alloc, fs, site, relation_of(found), relseg_size, &reader)
}

// The rows of a table, by what its cluster's control file says: the status files are read first, then the toast table.
pub(crate) fn table_rows<F: Fs>(
    alloc: Global,
    fs: &mut F,
    site: &ClusterSite,
    relseg_size: u32,
    counters: &Counters,
    found: &Found,
    snapshot: &Snapshot,
) -> Result<Rows, FsError>
    ensures reads { OnlyReads (record { told = F.told fs.old; firm = F.firm fs.old; depth = F.depth fs.old; trail = F.trail fs.old; counts = F.counts fs.old })
        (record { told = F.told fs.new; firm = F.firm fs.new; depth = F.depth fs.new; trail = F.trail fs.new; counts = F.counts fs.new }) (unless_lack (error_of result)) }
    ensures decided { F.told fs.old ≡ true → WellFormed (F.trail fs.old).present → DecidedBy (status_refusal (F.trail fs.old).present site.now.root.now) result }
    ensures rows { F.told fs.old ≡ true → WellFormed (F.trail fs.old).present
        → IfOk result (TellsRows (reading_in (F.trail fs.old).present (cluster_at (F.trail fs.old).present site.now relseg_size counters.now) (found_of found.now)) snapshot.now
        (table_blocks (F.trail fs.old).present (cluster_at (F.trail fs.old).present site.now relseg_size counters.now) (found_of found.now))) }
{
    let logs = match read_logs(alloc, fs, site.root, counters) {
        Ok(logs) => logs,
        Err(error) => return Err(error),
    };
    let index = match index_of(alloc, fs, site, relseg_size, found) {
        Ok(index) => index,
        Err(error) => return Err(error),
    };
    rows_by(alloc, fs, site, relseg_size, found, &index, &logs, snapshot)
}

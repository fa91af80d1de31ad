// The rows of a table that a snapshot sees.
ghost use Rattle.std.specs.Prelude.{◌≡◌, ◌↔◌, ℕ, true, Some, Err, IfOk};
ghost use Rattle.fs_model.specs.Observed.{Observed, OnlyReads};
ghost use Rattle.cluster_meaning.specs.Cluster.{opened};
ghost use Rattle.cluster_meaning.specs.Meaning.{FoundTable, found_table, reading_in};
ghost use Rattle.block_rows.specs.Rows.{TellsRows};
ghost use Rattle.cluster_read.specs.declared.error.ReadError.TheVariants.{NoSuch};
ghost use Rattle.cluster_read.specs.Causes.{DecidedAs, WrapsNoLack, FindsObjects, missing_object, cluster_refusal, read_refusal, fault_of};
ghost use Rattle.cluster_read.specs.Tables.{found_of, table_blocks};

use crate::control::control_at;
use crate::error::{ReadError, read_as};
use crate::found::{Found, find_table};
use crate::tables::table_rows;
use block_rows::Rows;
use catalog::Catalog;
use control_file::Release;
use fs_model::{Fs, Path};
use relation_files::ClusterSite;
use std::alloc::Global;
use visibility::Snapshot;

// The rows of a table that was found: the control file is read first.
fn rows_at<F: Fs>(
    alloc: Global,
    fs: &mut F,
    site: &ClusterSite,
    found: &Found,
    snapshot: &Snapshot,
) -> Result<Rows, ReadError>
    ensures reads { OnlyReads (record { told = F.told fs.old; firm = F.firm fs.old; depth = F.depth fs.old; trail = F.trail fs.old; counts = F.counts fs.old })
        (record { told = F.told fs.new; firm = F.firm fs.new; depth = F.depth fs.new; trail = F.trail fs.new; counts = F.counts fs.new }) (fault_of result) }
    ensures whole { WrapsNoLack result }
    ensures stands { FindsObjects result }
    ensures decided { F.told fs.old ≡ true → DecidedAs (cluster_refusal (F.trail fs.old).present site.now.root.now site.now.release) result }
    ensures rows { F.told fs.old ≡ true → IfOk result (TellsRows
        (reading_in (F.trail fs.old).present (opened (F.trail fs.old).present site.now.root.now site.now.release site.now.catalog.now) (found_of found.now)) snapshot.now
        (table_blocks (F.trail fs.old).present (opened (F.trail fs.old).present site.now.root.now site.now.release site.now.catalog.now) (found_of found.now))) }
{
    // It says that the state is well-formed.
    let _ = fs.moment();
    let control = match control_at(alloc, fs, site.root, site.release) {
        Ok(control) => control,
        Err(error) => return Err(error),
    };
    let answer = table_rows(
        alloc,
        fs,
        site,
        control.relseg_size,
        &control.counters,
        found,
        snapshot,
    );
    read_as(answer)
}

/// The rows of a table that a snapshot sees, in their order, with the blocks that are no pages and the number of tuples of
/// which it isn't known whether they are seen. The catalog, the release and the snapshot are the caller's; the files are
/// those of the cluster that stands at `root`. The catalog is asked first, then the control file is read, then the status
/// files, then the table's own toast table and the table, a block at a time (the manual's "Database Physical Storage").
///
/// Memory: that of the rows, of the chunks of the toast table, of the status files and of one block.
///
/// `NoSuch` comes exactly where the catalog lacks the database or the table. `Control` comes where the control file is
/// not read. `Fs` with a refusal comes where the control file is none of a file, a status directory is no directory, or the
/// name of a segment in one is that of no file. What is no file among a relation's segments counts as missing.
pub fn rows_of<F: Fs>(
    alloc: Global,
    fs: &mut F,
    root: &Path,
    release: Release,
    catalog: &Catalog,
    database: u32,
    table: u32,
    snapshot: &Snapshot,
) -> Result<Rows, ReadError>
    ensures reads { OnlyReads (record { told = F.told fs.old; firm = F.firm fs.old; depth = F.depth fs.old; trail = F.trail fs.old; counts = F.counts fs.old })
        (record { told = F.told fs.new; firm = F.firm fs.new; depth = F.depth fs.new; trail = F.trail fs.new; counts = F.counts fs.new }) (fault_of result) }
    ensures whole { WrapsNoLack result }
    ensures no_such { (oid : ℕ) → (result ≡ Err (NoSuch oid)) ↔ (missing_object catalog.now database table ≡ Some oid) }
    ensures decided { F.told fs.old ≡ true → DecidedAs (read_refusal (F.trail fs.old).present root.now release catalog.now database table) result }
    ensures rows { F.told fs.old ≡ true → (found : FoundTable) → found_table catalog.now database table ≡ Some found → IfOk result (TellsRows
        (reading_in (F.trail fs.old).present (opened (F.trail fs.old).present root.now release catalog.now) found) snapshot.now
        (table_blocks (F.trail fs.old).present (opened (F.trail fs.old).present root.now release catalog.now) found)) }
{
    let found = match find_table(catalog, database, table) {
        Ok(found) => found,
        Err(oid) => return Err(ReadError::NoSuch(oid)),
    };
    let site = ClusterSite {
        root,
        release,
        catalog,
    };
    rows_at(alloc, fs, &site, &found, snapshot)
}

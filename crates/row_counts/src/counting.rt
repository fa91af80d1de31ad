// Counting the rows of tables, of a database and of a cluster.
ghost use Rattle.std.specs.Prelude.{◌≡◌, ◌-◌, ◌^◌, ℕ, true, min, IfOk, IfErr};
ghost use Rattle.fs_model.specs.Observed.{Observed, OnlyReads};
ghost use Rattle.cluster_meaning.specs.Cluster.{opened};
ghost use Rattle.cluster_read.specs.Causes.{WrapsNoLack, fault_of};
ghost use Rattle.row_counts.specs.Counted.{rows_of_table, rows_of_database, rows_of_cluster, IsOfTable};

use catalog::{Catalog, Database};
use cluster_read::{ReadError, rows_of};
use control_file::Release;
use fs_model::{Fs, Path};
use relation_files::ClusterSite;
use std::alloc::Global;
use visibility::Snapshot;

// The number of rows of a table.
fn table_rows<F: Fs>(
    alloc: Global,
    fs: &mut F,
    site: &ClusterSite,
    database: u32,
    table: u32,
    snapshot: &Snapshot,
) -> Result<u64, ReadError>
    ensures reads { OnlyReads (record { told = F.told fs.old; firm = F.firm fs.old; depth = F.depth fs.old; trail = F.trail fs.old; counts = F.counts fs.old })
        (record { told = F.told fs.new; firm = F.firm fs.new; depth = F.depth fs.new; trail = F.trail fs.new; counts = F.counts fs.new }) (fault_of result) }
    ensures whole { WrapsNoLack result }
    ensures refused { F.told fs.old ≡ true → IfErr result (IsOfTable (F.trail fs.old).present site.now.root.now site.now.release site.now.catalog.now) }
    ensures counted { F.told fs.old ≡ true → IfOk result (λ rows.
        rows ≡ rows_of_table (F.trail fs.old).present (opened (F.trail fs.old).present site.now.root.now site.now.release site.now.catalog.now) snapshot.now database table) }
{
    match rows_of(
        alloc,
        fs,
        site.root,
        site.release,
        site.catalog,
        database,
        table,
        snapshot,
    ) {
        Ok(found) => Ok(found.rows.len() as u64),
        Err(error) => Err(error),
    }
}

// The number of rows of all tables of a database; it stands still at its type's end.
fn database_rows<F: Fs>(
    alloc: Global,
    fs: &mut F,
    site: &ClusterSite,
    database: &Database,
    snapshot: &Snapshot,
) -> Result<u64, ReadError>
    ensures reads { OnlyReads (record { told = F.told fs.old; firm = F.firm fs.old; depth = F.depth fs.old; trail = F.trail fs.old; counts = F.counts fs.old })
        (record { told = F.told fs.new; firm = F.firm fs.new; depth = F.depth fs.new; trail = F.trail fs.new; counts = F.counts fs.new }) (fault_of result) }
    ensures whole { WrapsNoLack result }
    ensures refused { F.told fs.old ≡ true → IfErr result (IsOfTable (F.trail fs.old).present site.now.root.now site.now.release site.now.catalog.now) }
    ensures counted { F.told fs.old ≡ true → IfOk result (λ rows.
        rows ≡ min (rows_of_database (F.trail fs.old).present (opened (F.trail fs.old).present site.now.root.now site.now.release site.now.catalog.now) snapshot.now database.now) (2 ^ 64 - 1)) }
{
    let mut rows = 0u64;
    let count = database.table_count();
    for i in 0..count {
        match database.table_at(i) {
            None => return Ok(rows),
            Some(table) => match table_rows(alloc, fs, site, database.oid, table.oid, snapshot) {
                Ok(found) => rows = rows.saturating_add(found),
                Err(error) => return Err(error),
            },
        }
    }
    Ok(rows)
}

/// The number of rows that a snapshot sees in all tables of a catalog; it stands still at its type's end. The catalog, the
/// release and the snapshot are the caller's; the files are those of the cluster that stands at `root`. The tables are read
/// one after another by `rows_of` of `cluster_read`, and the first error of one is answered.
pub fn count_rows<F: Fs>(
    alloc: Global,
    fs: &mut F,
    root: &Path,
    release: Release,
    catalog: &Catalog,
    snapshot: &Snapshot,
) -> Result<u64, ReadError>
    ensures reads { OnlyReads (record { told = F.told fs.old; firm = F.firm fs.old; depth = F.depth fs.old; trail = F.trail fs.old; counts = F.counts fs.old })
        (record { told = F.told fs.new; firm = F.firm fs.new; depth = F.depth fs.new; trail = F.trail fs.new; counts = F.counts fs.new }) (fault_of result) }
    ensures whole { WrapsNoLack result }
    ensures refused { F.told fs.old ≡ true → IfErr result (IsOfTable (F.trail fs.old).present root.now release catalog.now) }
    ensures counted { F.told fs.old ≡ true → IfOk result (λ rows.
        rows ≡ min (rows_of_cluster (F.trail fs.old).present (opened (F.trail fs.old).present root.now release catalog.now) snapshot.now) (2 ^ 64 - 1)) }
{
    let site = ClusterSite {
        root,
        release,
        catalog,
    };
    let mut rows = 0u64;
    let count = catalog.database_count();
    for i in 0..count {
        match catalog.database_at(i) {
            None => return Ok(rows),
            Some(database) => match database_rows(alloc, fs, &site, database, snapshot) {
                Ok(found) => rows = rows.saturating_add(found),
                Err(error) => return Err(error),
            },
        }
    }
    Ok(rows)
}

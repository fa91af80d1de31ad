// The rows of a cluster.
use catalog::{Catalog, Database};
use catalog_server::Server;
use cluster_read::rows_of;
use control_file::Release;
use fs_model::{Fs, Path};
use server_profile::ProfileServer;
use std::alloc::Global;
use visibility::Snapshot;

// One for which every transaction below the old cluster's next one has ended.
fn snapshot(alloc: Global) -> Option<Snapshot> {
    Snapshot::new(800, 800, Vec::new(alloc)).ok()
}

fn rows_of_table<F: Fs>(
    alloc: Global,
    fs: &mut F,
    root: &Path,
    release: Release,
    catalog: &Catalog,
    database: u32,
    table: u32,
) -> Option<u64> {
    let snapshot = snapshot(alloc)?;
    let found = rows_of(
        alloc, fs, root, release, catalog, database, table, &snapshot,
    )
    .ok()?;
    Some(found.rows.len() as u64)
}

// The rows of all tables of a database.
fn rows_of_database<F: Fs>(
    alloc: Global,
    fs: &mut F,
    root: &Path,
    release: Release,
    catalog: &Catalog,
    database: &Database,
) -> Option<u64> {
    let mut count = 0u64;
    for n in 0..database.table_count() {
        let table = database.table_at(n)?.oid;
        let rows = rows_of_table(alloc, fs, root, release, catalog, database.oid, table)?;
        count = count.saturating_add(rows);
    }
    Some(count)
}

/// The rows of all tables of the cluster at a root, as its catalog says.
pub(crate) fn rows_in<F: Fs>(
    alloc: Global,
    fs: &mut F,
    root: &str,
    release: Release,
) -> Option<u64> {
    let root = Path::parse(alloc, root).ok()?;
    let catalog = ProfileServer::new()
        .read_catalog(alloc, fs, &root, release)
        .ok()?;
    let mut count = 0u64;
    for n in 0..catalog.database_count() {
        let rows = rows_of_database(alloc, fs, &root, release, &catalog, catalog.database_at(n)?)?;
        count = count.saturating_add(rows);
    }
    Some(count)
}

// The directories and files of the two clusters.
use crate::{control_file, page_of_two_rows};
use control_file::Release;
use fs_model::{Fs, FsError, Path, PathError};

/// The old cluster's catalog text: the database `app` with the table `public.t`.
pub const CATALOG: &str = "BOOTSTRAP postgres;\n\
    SET NEXT database 16384;\n\
    CREATE DATABASE app OWNER postgres;\n\
    CONNECT app;\n\
    SET NEXT type 16387;\n\
    SET NEXT table 16385;\n\
    SET NEXT table_file 16385;\n\
    CREATE TABLE public.t OWNER postgres TABLESPACE pg_default (a int4);\n";

// The new cluster's catalog text.
const STARTING_CATALOG: &str = "BOOTSTRAP postgres;\n";

const DIRECTORIES: [&[&str]; 13] = [
    &[],
    &["base"],
    &["base", "1"],
    &["base", "4"],
    &["base", "5"],
    &["global"],
    &["pg_multixact"],
    &["pg_multixact", "members"],
    &["pg_multixact", "offsets"],
    &["pg_profile"],
    &["pg_tblspc"],
    &["pg_twophase"],
    &["pg_xact"],
];

const VERSION_FILES: [&[&str]; 4] = [
    &["PG_VERSION"],
    &["base", "1", "PG_VERSION"],
    &["base", "4", "PG_VERSION"],
    &["base", "5", "PG_VERSION"],
];

const MULTIXACT_FILES: [&[&str]; 2] = [
    &["pg_multixact", "members", "0000"],
    &["pg_multixact", "offsets", "0000"],
];

fn below(root: &Path, names: &[&str]) -> Result<Path, FsError> {
    match root.join(names) {
        Ok(path) => Ok(path),
        Err(PathError::Bad) => Err(FsError::WrongKind),
        Err(PathError::OutOfMemory) => Err(FsError::OutOfMemory),
    }
}

fn make_file<F: Fs>(fs: &mut F, root: &Path, names: &[&str], bytes: &[u8]) -> Result<(), FsError> {
    let file = below(root, names)?;
    fs.create(&file)?;
    fs.write_at(&file, 0, bytes)?;
    fs.sync_file(&file)
}

fn make_directories<F: Fs>(fs: &mut F, root: &Path) -> Result<(), FsError> {
    for names in &DIRECTORIES {
        fs.make_dir(&below(root, names)?)?;
    }
    Ok(())
}

// What both clusters have.
fn make_cluster<F: Fs>(
    fs: &mut F,
    root: &Path,
    release: Release,
    catalog: &str,
    status: &[u8; 8192],
) -> Result<(), FsError> {
    make_directories(fs, root)?;
    for names in &VERSION_FILES {
        make_file(fs, root, names, release.version_text())?;
    }
    for names in &MULTIXACT_FILES {
        make_file(fs, root, names, &[0u8; 8192])?;
    }
    make_file(fs, root, &["pg_xact", "0000"], status)?;
    make_file(fs, root, &["global", "pg_control"], &control_file(release))?;
    make_file(fs, root, &["pg_profile", "catalog.sql"], catalog.as_bytes())
}

// The status of the transactions: 700 is committed.
fn status() -> [u8; 8192] {
    let mut bytes = [0u8; 8192];
    bytes[175] = 1;
    bytes
}

/// Makes an old and a new cluster in two directories that don't stand yet, and syncs their files.
/// Errors: those of the file system.
pub fn make_pair<F: Fs>(fs: &mut F, old: &Path, new: &Path) -> Result<(), FsError> {
    make_cluster(fs, old, Release::V15, CATALOG, &status())?;
    fs.make_dir(&below(old, &["base", "16384"])?)?;
    make_file(
        fs,
        old,
        &["base", "16384", "PG_VERSION"],
        Release::V15.version_text(),
    )?;
    make_file(fs, old, &["base", "16384", "16385"], &page_of_two_rows())?;
    make_cluster(fs, new, Release::V16, STARTING_CATALOG, &[0u8; 8192])
}

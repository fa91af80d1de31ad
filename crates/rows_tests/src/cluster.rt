// The cluster with which each block begins.
use catalog::Catalog;
use control_file::Release;
use dump_text::load;
use fs_mem::{MemFs, Tree};
use fs_model::{Fs, FsError};
use fs_tools::make_file;
use fs_words::path;
use sample_clusters::control_file;
use std::alloc::{AllocError, Global};

static DIRECTORIES: [&str; 11] = [
    "/c",
    "/c/base",
    "/c/base/16384",
    "/c/global",
    "/c/pg_multixact",
    "/c/pg_multixact/members",
    "/c/pg_multixact/offsets",
    "/c/pg_xact",
    "/fast",
    "/fast/PG_15_202209061",
    "/fast/PG_15_202209061/16384",
];

static BEFORE: &str = "BOOTSTRAP postgres; \
    SET NEXT tablespace 16500; CREATE TABLESPACE fast OWNER postgres LOCATION '/fast'; \
    SET NEXT database 16384; CREATE DATABASE app OWNER postgres; CONNECT app; \
    SET NEXT type 16600; CREATE ENUM public.mood OWNER postgres; \
    SET NEXT label 16601; ADD LABEL public.mood 'sad'; SET NEXT label 16602; ADD LABEL public.mood 'very glad';";

// A table with a toast table, one without, and one in a tablespace of its own.
static TABLES: [(&str, &str); 3] = [
    (
        "SET NEXT type 16701; SET NEXT table 16701; SET NEXT table_file 16801; SET NEXT toast 16702; SET NEXT toast_file 16802; \
        SET NEXT toast_index 16703; SET NEXT toast_index_file 16803; CREATE TABLE public.t",
        "pg_default",
    ),
    (
        "SET NEXT type 16711; SET NEXT table 16711; SET NEXT table_file 16811; CREATE TABLE public.u",
        "pg_default",
    ),
    (
        "SET NEXT type 16721; SET NEXT table 16721; SET NEXT table_file 16821; SET NEXT toast 16722; SET NEXT toast_file 16822; \
        SET NEXT toast_index 16723; SET NEXT toast_index_file 16823; CREATE TABLE public.v",
        "fast",
    ),
];

fn push_all(text: &mut String, parts: &[&str]) -> Result<(), AllocError> {
    for part in parts {
        text.push_str(part)?;
    }
    Ok(())
}

fn text(alloc: Global, columns: &str) -> Result<String, AllocError> {
    let mut text = String::from_str(alloc, BEFORE)?;
    for (before, tablespace) in &TABLES {
        let table = format!(in alloc;
            "{before} OWNER postgres TABLESPACE {tablespace} ({columns});"
        )?;
        text.push_str(&table)?;
    }
    Ok(text)
}

/// The catalog with a database 16384 that has three tables of these columns: 16701 with the file 16801 and the toast table
/// 16702, 16711 with the file 16811, and in the tablespace at `/fast` 16721 with the file 16821 and the toast table 16722.
pub(crate) fn catalog(alloc: Global, columns: &str) -> Result<Catalog, AllocError> {
    match load(alloc, text(alloc, columns)?.as_bytes()) {
        Ok(catalog) => Ok(catalog),
        Err(_) => Err(AllocError),
    }
}

fn empty(alloc: Global) -> Result<MemFs, FsError> {
    match MemFs::new(alloc, Tree::new(Vec::new(alloc)), Vec::new(alloc)) {
        Ok(fs) => Ok(fs),
        Err(_) => Err(FsError::OutOfMemory),
    }
}

fn make(alloc: Global, fs: &mut MemFs) -> Result<(), FsError> {
    for dir in &DIRECTORIES {
        fs.make_dir(&path(alloc, "", dir)?)?;
    }
    make_file(
        fs,
        &path(alloc, "", "/c/global/pg_control")?,
        &control_file(Release::V15),
    )
}

/// A cluster of release 15 at `/c` that has its control file and no other.
pub(crate) fn cluster(alloc: Global) -> Result<MemFs, FsError> {
    let mut fs = empty(alloc)?;
    make(alloc, &mut fs)?;
    Ok(fs)
}

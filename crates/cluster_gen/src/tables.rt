// The directory of the database `app`.
ghost use Rattle.std.specs.Prelude.{◌≡◌, ◌≤◌, ◌<◌, ◌++◌, ◌∷◌, [], OnOk, Some};
ghost use Rattle.cluster_gen.specs.Parts.{file_part, table_parts, app_parts};

use crate::catalogs::row_type_of;
use crate::fixed::{Cluster, Content, put_place};
use crate::page::table_file;
use crate::parts::{Part, put_part};
use fs_model::{Bytes, Path};
use std::alloc::{AllocError, Global};

// Adds a relation's file, by the file's number.
fn put_file(
    alloc: Global,
    parts: &mut Vec<Part>,
    root: &Path,
    file: u32,
    bytes: Vec<u8>,
) -> Result<(), AllocError>
    ensures { OnOk result (parts.new.items ≡ parts.old.items ++ file_part root.now file bytes.items ∷ []) }
{
    let name = format!(in alloc; "{file}")?;
    put_part(
        parts,
        root,
        &["base", "16384", &name],
        Some(Bytes::new(bytes)),
    )
}

// Adds the files of a table, of its toast table and of that one's index; the last two are empty.
fn put_table(
    alloc: Global,
    parts: &mut Vec<Part>,
    root: &Path,
    table: u32,
) -> Result<(), AllocError>
    requires { table < 200 }
    ensures { OnOk result (parts.new.items ≡ parts.old.items ++ table_parts root.now table) }
{
    let before = row_type_of(table);
    put_file(alloc, parts, root, before + 1, table_file(alloc, table)?)?;
    put_file(alloc, parts, root, before + 2, Vec::new(alloc))?;
    put_file(alloc, parts, root, before + 3, Vec::new(alloc))
}

/// Adds the directory of the database `app` with so many tables.
#[tactic(auto, unfolding(crate::specs::Parts::app_parts))]
pub(crate) fn put_app(
    alloc: Global,
    parts: &mut Vec<Part>,
    cluster: &Cluster,
    tables: u32,
) -> Result<(), AllocError>
    requires { tables ≤ 200 }
    ensures { OnOk result (parts.new.items ≡ parts.old.items ++ app_parts cluster.now tables) }
{
    put_place(
        alloc,
        parts,
        cluster,
        &["base", "16384"],
        Content::Directory,
    )?;
    for table in 0..tables {
        put_table(alloc, parts, &cluster.root, table)?;
    }
    put_place(
        alloc,
        parts,
        cluster,
        &["base", "16384", "PG_VERSION"],
        Content::Version,
    )?;
    Ok(())
}

// The chunks of a table's toast table.
ghost use Rattle.std.specs.Prelude.{◌≡◌, true, None, IfOk};
ghost use Rattle.fs_model.specs.WellFormed.{WellFormed};
ghost use Rattle.fs_model.specs.Trail.{DecidedBy, error_of, unless_lack};
ghost use Rattle.fs_model.specs.Observed.{Observed, OnlyReads};
ghost use Rattle.control_file.specs.declared.records.Counters.{Counters};
ghost use Rattle.toast_read.specs.Index.{IsIndexOf};
ghost use Rattle.cluster_meaning.specs.Chunks.{chunks_of_blocks};
ghost use Rattle.cluster_meaning.specs.Meaning.{toast_blocks};
ghost use Rattle.cluster_read.specs.Tables.{found_of, cluster_at};

use crate::found::{Found, toast_relation_of};
use catalog::Toast;
use fork_scan::fork_chunks;
use fs_model::{Fs, FsError};
use relation_files::ClusterSite;
use std::alloc::Global;
use toast_read::{Chunk, ToastIndex};

// The chunks of a toast table; none where there is no toast table.
fn toast_chunks<F: Fs>(
    alloc: Global,
    fs: &mut F,
    site: &ClusterSite,
    relseg_size: u32,
    found: &Found,
    toast: Option<Toast>,
) -> Result<Vec<Chunk>, FsError>
    ensures reads { OnlyReads (record { told = F.told fs.old; firm = F.firm fs.old; depth = F.depth fs.old; trail = F.trail fs.old; counts = F.counts fs.old })
        (record { told = F.told fs.new; firm = F.firm fs.new; depth = F.depth fs.new; trail = F.trail fs.new; counts = F.counts fs.new }) (unless_lack (error_of result)) }
    ensures unrefused { F.told fs.old ≡ true → WellFormed (F.trail fs.old).present → DecidedBy None result }
    ensures chunks { F.told fs.old ≡ true → WellFormed (F.trail fs.old).present → (counters : Counters) → IfOk result (λ chunks.
        chunks.items ≡ chunks_of_blocks (toast_blocks (F.trail fs.old).present (cluster_at (F.trail fs.old).present site.now relseg_size counters) (found_of found.now) toast)) }
{
    let Some(toast) = toast else {
        return Ok(Vec::new(alloc));
    };
    fork_chunks(
        alloc,
        fs,
        site,
        toast_relation_of(found, toast),
        relseg_size,
    )
}

// The chunks of a table's own toast table, by their values.
pub(crate) fn index_of<F: Fs>(
    alloc: Global,
    fs: &mut F,
    site: &ClusterSite,
    relseg_size: u32,
    found: &Found,
) -> Result<ToastIndex, FsError>
    ensures reads { OnlyReads (record { told = F.told fs.old; firm = F.firm fs.old; depth = F.depth fs.old; trail = F.trail fs.old; counts = F.counts fs.old })
        (record { told = F.told fs.new; firm = F.firm fs.new; depth = F.depth fs.new; trail = F.trail fs.new; counts = F.counts fs.new }) (unless_lack (error_of result)) }
    ensures unrefused { F.told fs.old ≡ true → WellFormed (F.trail fs.old).present → DecidedBy None result }
    ensures index { F.told fs.old ≡ true → WellFormed (F.trail fs.old).present → (counters : Counters) → IfOk result (λ index.
        IsIndexOf index (chunks_of_blocks (toast_blocks (F.trail fs.old).present (cluster_at (F.trail fs.old).present site.now relseg_size counters) (found_of found.now) found.now.table.now.toast))) }
{
    let table = found.table;
    let chunks = match toast_chunks(alloc, fs, site, relseg_size, found, table.toast) {
        Ok(chunks) => chunks,
        Err(error) => return Err(error),
    };
    match ToastIndex::build(alloc, chunks) {
        Ok(index) => Ok(index),
        Err(_) => Err(FsError::OutOfMemory),
    }
}

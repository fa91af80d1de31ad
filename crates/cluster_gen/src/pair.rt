// Making the pair.
ghost use Rattle.std.specs.Prelude.{◌≡◌, ◌≤◌, ◌<◌, ◌++◌, ◌∷◌, [], ◌↔◌, None, IfOk, OnOk, IsErrOf};
ghost use Rattle.fs_mem.specs.History.{opens};
ghost use Rattle.fs_mem.specs.Tree.{opening_of, tree_fault};
ghost use Rattle.fs_model.specs.Crash.{Settled};
ghost use Rattle.fs_model.specs.WellFormed.{WellFormed};
ghost use Rattle.cluster_gen.specs.Parts.{new_cluster, old_cluster, new_parts, old_parts, old_status, pair_parts};
ghost use Rattle.cluster_gen.specs.Tree.{pair_tree};

use crate::catalogs::{new_catalog, old_catalog, text_in};
use crate::control::{control_file, new_counters, old_counters};
use crate::error::GenError;
use crate::fixed::{Cluster, FIRST_PLACES, LATER_PLACES, put_places, zeros};
use crate::numbers::put_zeros;
use crate::parts::Part;
use crate::tables::put_app;
use crate::tree::numbered;
use control_file::Release;
use fs_mem::MemFs;
use fs_model::{Bytes, Path};
use std::alloc::{AllocError, Global};

const MOST_TABLES: u64 = 200;

fn root_named(alloc: Global, name: &str) -> Result<Path, AllocError>
    ensures { IfOk result (λ path. path ≡ name.now ∷ []) }
{
    match Path::root(alloc).join(&[name]) {
        Ok(path) => Ok(path),
        Err(_) => Err(AllocError),
    }
}

// Transactions 700 and 701 are committed.
#[tactic(auto, unfolding(crate::specs::Parts::old_status))]
fn old_status(alloc: Global) -> Result<Bytes, AllocError>
    ensures { IfOk result (λ bytes. bytes ≡ old_status) }
{
    let mut bytes = Vec::new(alloc);
    put_zeros(&mut bytes, 175)?;
    bytes.push(0x05)?;
    put_zeros(&mut bytes, 8016)?;
    Ok(Bytes::new(bytes))
}

fn new_cluster(alloc: Global) -> Result<Cluster, AllocError>
    ensures { IfOk result (λ cluster. cluster ≡ new_cluster) }
{
    let control = control_file(alloc, Release::V16, &new_counters())?;
    let catalog = text_in(alloc, &new_catalog(alloc)?)?;
    Ok(Cluster {
        root: root_named(alloc, "new")?,
        release: Release::V16,
        control: Bytes::new(control),
        status: zeros(alloc)?,
        catalog: Bytes::new(catalog),
    })
}

fn old_cluster(alloc: Global, tables: u32) -> Result<Cluster, AllocError>
    requires { tables ≤ 200 }
    ensures { IfOk result (λ cluster. cluster ≡ old_cluster tables) }
{
    let control = control_file(alloc, Release::V15, &old_counters())?;
    let catalog = text_in(alloc, &old_catalog(alloc, tables)?)?;
    Ok(Cluster {
        root: root_named(alloc, "old")?,
        release: Release::V15,
        control: Bytes::new(control),
        status: old_status(alloc)?,
        catalog: Bytes::new(catalog),
    })
}

#[tactic(auto, unfolding(crate::specs::Parts::new_parts))]
fn put_new(alloc: Global, parts: &mut Vec<Part>) -> Result<(), AllocError>
    ensures { OnOk result (parts.new.items ≡ parts.old.items ++ new_parts) }
{
    let cluster = new_cluster(alloc)?;
    put_places(alloc, parts, &cluster, &FIRST_PLACES)?;
    put_places(alloc, parts, &cluster, &LATER_PLACES)?;
    Ok(())
}

#[tactic(auto, unfolding(crate::specs::Parts::old_parts))]
fn put_old(alloc: Global, parts: &mut Vec<Part>, tables: u32) -> Result<(), AllocError>
    requires { tables ≤ 200 }
    ensures { OnOk result (parts.new.items ≡ parts.old.items ++ old_parts tables) }
{
    let cluster = old_cluster(alloc, tables)?;
    put_places(alloc, parts, &cluster, &FIRST_PLACES)?;
    put_app(alloc, parts, &cluster, tables)?;
    put_places(alloc, parts, &cluster, &LATER_PLACES)?;
    Ok(())
}

#[tactic(auto, unfolding(crate::specs::Parts::pair_parts))]
fn pair_parts(alloc: Global, tables: u32) -> Result<Vec<Part>, AllocError>
    requires { tables ≤ 200 }
    ensures { IfOk result (λ parts. parts.items ≡ pair_parts tables) }
{
    let mut parts = Vec::new(alloc);
    put_new(alloc, &mut parts)?;
    put_old(alloc, &mut parts, tables)?;
    Ok(parts)
}

// A file system that holds the pair.
#[tactic(auto, unfolding(crate::specs::Tree::pair_tree))]
fn opened(alloc: Global, tables: u32) -> Result<MemFs, AllocError>
    requires { tables ≤ 200 }
    ensures tree { IfOk result (λ fs. fs ≡ opens (opening_of (pair_tree tables))) }
    ensures settled { IfOk result (λ fs. Settled fs.opening) }
    ensures well_formed { IfOk result (λ fs. WellFormed fs.opening) }
    ensures sound { OnOk result (tree_fault (pair_tree tables) ≡ None) }
{
    let tree = numbered(alloc, &pair_parts(alloc, tables)?)?;
    match MemFs::new(alloc, tree, Vec::new(alloc)) {
        Ok(fs) => Ok(fs),
        // want of memory alone: each directory comes before what it has, and no path or inode comes twice
        Err(_) => Err(AllocError),
    }
}

/// A file system with the directories `/old` and `/new`: an old cluster with so many tables in the database `app`, and the
/// new one. No call fails. `TooMany` comes exactly above 200 tables.
pub fn make(alloc: Global, n: u64) -> Result<MemFs, GenError>
    ensures tree { IfOk result (λ fs. fs ≡ opens (opening_of (pair_tree n))) }
    ensures settled { IfOk result (λ fs. Settled fs.opening) }
    ensures well_formed { IfOk result (λ fs. WellFormed fs.opening) }
    // Each directory comes before what it has, and no path comes twice.
    ensures sound { OnOk result (tree_fault (pair_tree n) ≡ None) }
    ensures too_many { IsErrOf result GenError.TooMany ↔ (200 < n) }
{
    if n > MOST_TABLES {
        return Err(GenError::TooMany);
    }
    Ok(opened(alloc, n as u32)?)
}

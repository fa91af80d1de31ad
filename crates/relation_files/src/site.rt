// Where the files of a relation stand.
ghost use Rattle.std.specs.Prelude.{◌≡◌, ◌≢◌, ◌++◌, ◌∷◌, [], IfOk, Err, string_bytes};
ghost use Rattle.relation_files.specs.Places.{fork_suffix, tablespace_dir, relation_dir, file_name, segment_path};
ghost use Rattle.relation_files.specs.Sites.{site_at};

use crate::relation::{Fork, Relation};
use catalog::Catalog;
use control_file::Release;
use fs_model::{Path, PathError};
use std::alloc::{AllocError, Global};

const DEFAULT_TABLESPACE: u32 = 1663;

/// Where a cluster stands: its data directory, its release, and the catalog that has its tablespaces.
#[derive(Clone, Copy)]
pub struct ClusterSite<'a> {
    pub root: &'a Path,
    pub release: Release,
    pub catalog: &'a Catalog,
}

fn suffix_of(fork: Fork) -> &'static str
    ensures { result.now ≡ fork_suffix fork }
{
    match fork {
        Fork::Main => "",
        Fork::FreeSpace => "_fsm",
        Fork::Visibility => "_vm",
    }
}

/// The name of a segment of a fork, as `16385_vm.1`. The first segment's has no number.
pub fn file_name(
    alloc: Global,
    relation: Relation,
    fork: Fork,
    segment: u32,
) -> Result<String, AllocError>
    ensures { IfOk result (λ name. string_bytes name ≡ file_name relation fork segment) }
{
    let mut name = format!(in alloc; "{}", relation.file)?;
    name.push_str(suffix_of(fork))?;
    if segment > 0 {
        let number = format!(in alloc; ".{segment}")?;
        name.push_str(&number)?;
    }
    Ok(name)
}

// The directory that a cluster's release has in a tablespace.
fn tablespace_dir(alloc: Global, site: &ClusterSite, tablespace: u32) -> Result<Path, PathError>
    ensures path { IfOk result (λ path. path ≡ tablespace_dir (site_at site.now) tablespace) }
    ensures never_bad { result ≢ Err PathError.Bad }
{
    if tablespace == DEFAULT_TABLESPACE {
        return site.root.join(&["base"]);
    }
    let dir = site.release.dir_name();
    match site.catalog.tablespace(tablespace) {
        Some(found) => found.location.join(&[dir]),
        None => Path::root(alloc).join(&[dir]),
    }
}

/// The directory that has the files of a relation: that of its database, in `base` or in the release's own directory of a
/// tablespace. `Bad` never comes.
pub fn relation_dir(
    alloc: Global,
    site: &ClusterSite,
    relation: Relation,
) -> Result<Path, PathError>
    ensures path { IfOk result (λ path. path ≡ relation_dir (site_at site.now) relation) }
    ensures never_bad { result ≢ Err PathError.Bad }
{
    let database = format!(in alloc; "{}", relation.database)?;
    let dir = tablespace_dir(alloc, site, relation.tablespace)?;
    dir.join(&[&database])
}

/// The path of a segment of a fork. `Bad` never comes.
#[tactic(auto, unfolding(crate::specs::Places::segment_path))]
pub fn segment_path(
    alloc: Global,
    site: &ClusterSite,
    relation: Relation,
    fork: Fork,
    segment: u32,
) -> Result<Path, PathError>
    ensures path { IfOk result (λ path. path ≡ segment_path (site_at site.now) relation fork segment) }
    ensures never_bad { result ≢ Err PathError.Bad }
{
    let file = file_name(alloc, relation, fork, segment)?;
    let dir = relation_dir(alloc, site, relation)?;
    dir.join(&[&file])
}

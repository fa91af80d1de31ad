// What each cluster has.
ghost use Rattle.std.specs.Prelude.{◌≡◌, ◌++◌, ◌∷◌, [], IfOk, OnOk, map};
ghost use Rattle.cluster_gen.specs.Parts.{content_of, part_at, parts_at};
ghost use Rattle.cluster_gen.specs.Numbers.{zeros};

use crate::numbers::put_zeros;
use crate::parts::{Part, put_part};
use control_file::Release;
use fs_model::{Bytes, Path};
use std::alloc::{AllocError, Global};

/// Where a cluster stands, and what its files have that aren't the same in each cluster.
#[derive(Drop)]
pub(crate) struct Cluster {
    pub(crate) root: Path,
    pub(crate) release: Release,
    pub(crate) control: Bytes,
    /// The first segment of the status of transactions.
    pub(crate) status: Bytes,
    pub(crate) catalog: Bytes,
}

/// What stands at a place of a cluster.
#[derive(Clone, Copy)]
pub(crate) enum Content {
    Directory,
    Version,
    Control,
    /// Transactions.
    Status,
    /// Multixacts, of which there are none.
    Zeros,
    Catalog,
}

/// A place of a cluster, by the names from its directory on.
type Place = (&'static [&'static str], Content);

/// The places before those of the database `app`, in ascending order.
pub(crate) const FIRST_PLACES: [Place; 5] = [
    (&[], Content::Directory),
    (&["PG_VERSION"], Content::Version),
    (&["base"], Content::Directory),
    (&["base", "1"], Content::Directory),
    (&["base", "1", "PG_VERSION"], Content::Version),
];

/// The places behind those of the database `app`, in ascending order.
pub(crate) const LATER_PLACES: [Place; 17] = [
    (&["base", "4"], Content::Directory),
    (&["base", "4", "PG_VERSION"], Content::Version),
    (&["base", "5"], Content::Directory),
    (&["base", "5", "PG_VERSION"], Content::Version),
    (&["global"], Content::Directory),
    (&["global", "pg_control"], Content::Control),
    (&["pg_multixact"], Content::Directory),
    (&["pg_multixact", "members"], Content::Directory),
    (&["pg_multixact", "members", "0000"], Content::Zeros),
    (&["pg_multixact", "offsets"], Content::Directory),
    (&["pg_multixact", "offsets", "0000"], Content::Zeros),
    (&["pg_profile"], Content::Directory),
    (&["pg_profile", "catalog.sql"], Content::Catalog),
    (&["pg_tblspc"], Content::Directory),
    (&["pg_twophase"], Content::Directory),
    (&["pg_xact"], Content::Directory),
    (&["pg_xact", "0000"], Content::Status),
];

/// The bytes of a status file that says nothing.
pub(crate) fn zeros(alloc: Global) -> Result<Bytes, AllocError>
    ensures { IfOk result (λ bytes. bytes ≡ zeros 8192) }
{
    let mut bytes = Vec::new(alloc);
    put_zeros(&mut bytes, 8192)?;
    Ok(Bytes::new(bytes))
}

// The bytes of the file that stands there, if it is a file.
fn content_of(
    alloc: Global,
    cluster: &Cluster,
    content: Content,
) -> Result<Option<Bytes>, AllocError>
    ensures { IfOk result (λ bytes. bytes ≡ content_of cluster.now content) }
{
    Ok(match content {
        Content::Directory => None,
        Content::Version => Some(Bytes::new(Vec::from_slice(
            alloc,
            cluster.release.version_text(),
        )?)),
        Content::Control => Some(cluster.control.clone()?),
        Content::Status => Some(cluster.status.clone()?),
        Content::Zeros => Some(zeros(alloc)?),
        Content::Catalog => Some(cluster.catalog.clone()?),
    })
}

/// Adds what stands at a place of the cluster.
pub(crate) fn put_place(
    alloc: Global,
    parts: &mut Vec<Part>,
    cluster: &Cluster,
    names: &[&str],
    content: Content,
) -> Result<(), AllocError>
    ensures { OnOk result (parts.new.items ≡ parts.old.items ++ part_at cluster.now (map (λ name. name.now) names.now, content) ∷ []) }
{
    let bytes = content_of(alloc, cluster, content)?;
    put_part(parts, &cluster.root, names, bytes)
}

/// Adds what stands at the places of the cluster.
#[tactic(auto, unfolding(crate::specs::Parts::parts_at))]
pub(crate) fn put_places(
    alloc: Global,
    parts: &mut Vec<Part>,
    cluster: &Cluster,
    places: &[Place],
) -> Result<(), AllocError>
    ensures { OnOk result (parts.new.items ≡ parts.old.items ++ parts_at cluster.now (map (λ place. (map (λ name. name.now) place.0.now, place.1)) places.now)) }
{
    for (names, content) in places {
        put_place(alloc, parts, cluster, names, *content)?;
    }
    Ok(())
}

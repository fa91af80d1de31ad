ghost use Rattle.std.specs.Prelude.{◌≡◌, ◌≢◌, ℕ};
ghost use Rattle.fs_model.specs.State.{FsState};
ghost use Rattle.catalog.specs.Cluster.{Cluster};
ghost use Rattle.xact_status.specs.Files.{SegmentFiles};
ghost use Rattle.relation_files.specs.declared.relation.Fork.{Fork};
ghost use Rattle.relation_files.specs.Carried.{carried};
ghost use Rattle.cluster_meaning.specs.Blocks.{blocks_of};
ghost use Rattle.cluster_meaning.specs.Carries.{Home, Carries};
ghost use Rattle.cluster_meaning.specs.Cluster.{OpenCluster, opened};
ghost use Rattle.cluster_meaning.specs.Meaning.{table_meaning};
ghost use Rattle.cluster_meaning.specs.SameParts.{SameParts};

/// Clusters with the same parts have the same tables, and each table has one meaning in both: equal blocks, items,
/// values and map bits, and for every snapshot equal answers.
pub fn same_parts_law()
    ensures { (s x : FsState) (old new : OpenCluster) → SameParts s old x new
        → (database table : ℕ) → table_meaning x new database table ≡ table_meaning s old database table }
{}

/// A fork has the blocks of its carried files, where a segment has blocks at all: what isn't carried has none.
pub fn carried_blocks_law()
    ensures { (fork : Fork) (relseg_size : ℕ) (files : SegmentFiles) → relseg_size ≢ 0
        → blocks_of relseg_size (carried fork files) ≡ blocks_of relseg_size files }
{}

/// A cluster to which all parts of another were carried means what that one does: each table has one meaning in both.
pub fn carried_meaning_law()
    ensures { (catalog : Cluster) (old new : Home) (s x : FsState) → Carries catalog old s new x
        → (database table : ℕ) → table_meaning x (opened x new.root new.release catalog) database table
        ≡ table_meaning s (opened s old.root old.release catalog) database table }
{}

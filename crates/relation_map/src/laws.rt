ghost use Rattle.std.specs.Prelude.{◌≡◌, map};
ghost use Rattle.catalog.specs.Cluster.{Cluster};
ghost use Rattle.catalog.specs.Valid.{IsValid};
ghost use Rattle.control_file.specs.declared.job.Job.{Job};
ghost use Rattle.relation_files.specs.Relations.{relations_of};
ghost use Rattle.relation_map.specs.Pairs.{entries_of};
ghost use Rattle.relation_map.specs.Equal.{carriage_of, carriage};

/// A law of the definition `entries_of`: for equal catalogs the entries are the relations of the catalog in its order, each
/// with its directories in both clusters and its file number.
pub fn equal_catalogs_law()
    ensures { (job : Job) (catalog : Cluster) → IsValid catalog → map carriage_of (entries_of job catalog catalog) ≡ map (carriage job catalog) (relations_of catalog) }
{}

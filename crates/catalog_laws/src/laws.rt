ghost use Rattle.catalog.specs.Cluster.{Cluster};
ghost use Rattle.catalog.specs.Valid.{IsValid};
ghost use Rattle.catalog_laws.specs.Unrefused.{IsUnrefused};

/// No object of a valid catalog is refused against those that stand before it in the order roles, tablespaces,
/// databases, and in each database schemas, enums with their labels, tables, indexes, sequences. Of the objects whose
/// OIDs are the system's, those of the start, nothing is said.
pub fn valid_is_unrefused()
    ensures { (c : Cluster) → IsValid c → IsUnrefused c }
{}

ghost use Rattle.dump_laws.specs.Replayed.{StatementsReplay, StatementsAreWritable};

/// The statements of a valid catalog, replayed on the catalog that a cluster of its bootstrap role starts with, lead to
/// it: none is refused, and no number is left.
pub fn statements_replay()
    ensures { StatementsReplay }
{}

/// The statements of a valid catalog can be written, where the texts of its locations are UTF-8 and its missing values
/// are bytes. Those of a `Catalog` always are.
pub fn statements_are_writable()
    ensures { StatementsAreWritable }
{}

// Laws of the canonical text.
ghost use Rattle.dump_text.specs.Printed.{CanonicalLeads, CanonicalIsLoaded};

/// By the rules the canonical text of a valid catalog takes the catalog that a cluster of its bootstrap role starts with
/// to it.
pub fn canonical_leads()
    ensures { CanonicalLeads }
{}

/// The canonical text of a valid catalog is loaded as that catalog.
pub fn canonical_is_loaded()
    ensures { CanonicalIsLoaded }
{}

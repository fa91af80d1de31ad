ghost use Rattle.std.specs.Prelude.{◌≡◌, Ok, IfOk, IfErr};
ghost use Rattle.dump_grammar.specs.declared.error.TextCause.TheVariants.{OutOfMemory};
ghost use Rattle.dump_grammar.specs.Canonical.{canonical};
ghost use Rattle.dump_replay.specs.Replay.{load_of};
ghost use Rattle.dump_text.specs.Printed.{LeadsTo};

use catalog::Catalog;
use dump_grammar::TextError;
use dump_print::put_catalog;
use std::alloc::Global;

/// The canonical text of a catalog: one statement a line, in the order of roles, tablespaces, databases and what these
/// hold, as `pg_dumpall` and `pg_dump --binary-upgrade` order them. `OutOfMemory` alone is answered, at line 0.
pub fn print(alloc: Global, catalog: &Catalog) -> Result<Vec<u8>, TextError>
    ensures text { IfOk result (λ v. v.items ≡ canonical catalog.now) }
    // By the rules the text takes the catalog that a cluster of this bootstrap role starts with to this one.
    ensures leads { IfOk result (λ v. LeadsTo v.items catalog.now) }
    // What is printed is loaded as the catalog that was printed.
    ensures loads { IfOk result (λ v. load_of v.items ≡ Ok catalog.now) }
    ensures error { IfErr result (λ e. e ≡ record { line = 0; cause = OutOfMemory }) }
{
    let mut text = Vec::new(alloc);
    put_catalog(&mut text, catalog)?;
    Ok(text)
}

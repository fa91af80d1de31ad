ghost use Rattle.std.specs.Prelude.{◌≡◌, ◌-◌, ◌^◌, min};
ghost use Rattle.phases.specs.Summing.{tables_in, Summarizes};

use catalog::Catalog;
use control_file::Job;
use phase_names::Summary;
use transfer_plan::Plan;

/// The upgrade is done.
#[derive(Drop)]
pub struct Finished {
    pub(crate) job: Job,
    pub(crate) catalog: Catalog,
    pub(crate) plan: Plan,
}

// The number of tables of all databases; it stands still at its type's end.
fn table_count(catalog: &Catalog) -> u64
    ensures { result ≡ min (tables_in catalog.now.databases) (2 ^ 64 - 1) }
{
    let mut tables = 0u64;
    let count = catalog.database_count();
    for i in 0..count {
        match catalog.database_at(i) {
            None => return tables,
            Some(database) => tables = tables.saturating_add(database.table_count() as u64),
        }
    }
    tables
}

impl Finished {
    /// What the upgrade carried. Takes no memory.
    pub fn summary(&self) -> Summary
        ensures { Summarizes self.now.catalog self.now.plan result }
    {
        Summary {
            databases: self.catalog.database_count() as u64,
            tables: table_count(&self.catalog),
            files: self.plan.items().len() as u64,
        }
    }
}

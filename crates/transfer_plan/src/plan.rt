// The plan of a transfer.
ghost use Rattle.std.specs.Prelude.{◌≡◌};

use fs_model::Path;
use std::marker::Model;

/// A file of the old cluster, and the name that it gets in the new one.
#[derive(Drop)]
pub struct PlanItem {
    pub from: Path,
    pub to: Path,
    /// Whether something stands at `to`, which is removed first: the restored schema has an empty file for each relation.
    pub replaces: bool,
}

/// The files that a transfer carries, in the order in which it does. (`struct FileNameMap` of
/// `src/bin/pg_upgrade/pg_upgrade.h` has a relation where this has a file.)
#[derive(Drop)]
pub struct Plan {
    items: Vec<PlanItem>,
}

impl Model for Plan {
    ghost use Rattle.std.specs.Prelude.{List};
    ghost use Rattle.transfer_plan.specs.declared.plan.PlanItem.{PlanItem};

    ghost Value = { List PlanItem };

    ghost view = { λ a. a.items.items };
}

impl Plan {
    /// Takes no memory.
    pub fn new(items: Vec<PlanItem>) -> Plan
        ensures { result ≡ items.items }
    {
        Plan { items }
    }

    /// Lends the items.
    pub fn items(&self) -> &[PlanItem]
        ensures { result.now ≡ self.now }
    {
        &self.items
    }
}

// A database's relations, to be looked up.
ghost use Rattle.std.specs.Prelude.{◌≡◌, IfOk, length, slice_get};
ghost use Rattle.std.specs.Option.{option_copied};
ghost use Rattle.std.specs.List.{find};
ghost use Rattle.relation_map.specs.Named.{named_has};
ghost use Rattle.relation_map.specs.Pairs.{relations_if};

use crate::named::{Named, relations_named};
use catalog::Database;
use fs_maps::InodeMap;
use std::alloc::{AllocError, Global};
use std::marker::Model;

/// A database's relations, with their places by their OIDs. A contract sees the list of the relations.
#[derive(Drop)]
pub(crate) struct Relations {
    items: Vec<Named>,
    places: InodeMap<usize>,
}

impl Model for Relations {
    ghost use Rattle.std.specs.Prelude.{◌≡◌, ℕ, List};
    ghost use Rattle.std.specs.List.{find};
    ghost use Rattle.std.specs.FinMap.{get};
    ghost use Rattle.relation_map.specs.declared.named.Named.{Named};
    ghost use Rattle.relation_map.specs.Named.{named_has};
    ghost use Rattle.relation_map.specs.Places.{found_at};

    ghost Value = { List Named };

    ghost view = { λ r. r.items.items };

    ghost invariant = { λ r. (oid : ℕ) → found_at r.items.items (get r.places oid) ≡ find (named_has oid) r.items.items };
}

// The relation at a place.
fn named_at(items: &Vec<Named>, n: usize) -> Option<&Named>
    ensures { option_copied result ≡ slice_get items.now.items n }
{
    items.get(n)
}

impl Relations {
    /// Takes the relations.
    pub(crate) fn new(alloc: Global, items: Vec<Named>) -> Result<Relations, AllocError>
        ensures { IfOk result (λ relations. relations ≡ items.items) }
    {
        let mut places = InodeMap::new(alloc);
        let count = items.len();
        for passed in 0..count {
            let place = count - 1 - passed;
            match named_at(&items, place) {
                None => return Err(AllocError),
                Some(named) => places.insert(named.oid as u64, place)?,
            }
        }
        Ok(Relations { items, places })
    }

    /// The number of the relations.
    pub(crate) fn count(&self) -> usize
        ensures { result ≡ length self.now }
    {
        self.items.len()
    }

    /// The relation at a place, counted from 0.
    pub(crate) fn at(&self, n: usize) -> Option<&Named>
        ensures { option_copied result ≡ slice_get self.now n }
    {
        self.items.get(n)
    }

    /// The relation of an OID.
    pub(crate) fn of(&self, oid: u32) -> Option<&Named>
        ensures { option_copied result ≡ find (named_has oid) self.now }
    {
        match self.places.get(oid as u64) {
            None => None,
            Some(place) => self.items.get(*place),
        }
    }
}

/// The relations of a database; none where there is no database.
pub(crate) fn relations_if(
    alloc: Global,
    database: Option<&Database>,
) -> Result<Relations, AllocError>
    ensures { IfOk result (λ relations. relations ≡ relations_if (option_copied database.entry)) }
{
    match database {
        None => Relations::new(alloc, Vec::new(alloc)),
        Some(database) => Relations::new(alloc, relations_named(alloc, database)?),
    }
}

// A database's relations, to be looked up.
ghost use Rattle.std.specs.Prelude.{◌≡◌, IfOk, OnOk, length, slice_get};
ghost use Rattle.std.specs.Option.{option_copied};
ghost use Rattle.std.specs.FinMap.{insert};
ghost use Rattle.std.specs.List.{list_any};
ghost use Rattle.catalog_server.specs.ReplayNames.{relation_has, stands_in};

use catalog_server::Relation;
use fs_maps::InodeMap;
use std::alloc::{AllocError, Global};
use std::marker::Model;

/// A database's relations, with their OIDs and those of the tablespaces that they stand in as ordered sets. A contract
/// sees the list of the relations.
#[derive(Drop)]
pub(crate) struct Known {
    relations: Vec<Relation>,
    oids: InodeMap<()>,
    tablespaces: InodeMap<()>,
}

impl Model for Known {
    ghost use Rattle.std.specs.Prelude.{◌≡◌, ℕ, List};
    ghost use Rattle.std.specs.List.{list_any};
    ghost use Rattle.std.specs.FinMap.{contains_key};
    ghost use Rattle.catalog_server.specs.declared.relation.Relation.{Relation};
    ghost use Rattle.catalog_server.specs.ReplayNames.{relation_has, stands_in};

    ghost Value = { List Relation };

    ghost view = { λ k. k.relations.items };

    ghost invariant = { λ k. ((oid : ℕ) → contains_key k.oids oid ≡ list_any (relation_has oid) k.relations.items) × ((oid : ℕ) → contains_key k.tablespaces oid ≡ list_any (stands_in oid) k.relations.items) };
}

fn add_numbers(
    oids: &mut InodeMap<()>,
    tablespaces: &mut InodeMap<()>,
    relation: &Relation,
) -> Result<(), AllocError>
    ensures oids { OnOk result (oids.new ≡ insert oids.old relation.now.oid tt) }
    ensures tablespaces { OnOk result (tablespaces.new ≡ insert tablespaces.old relation.now.tablespace tt) }
{
    oids.insert(relation.oid as u64, ())?;
    tablespaces.insert(relation.tablespace as u64, ())
}

impl Known {
    /// Takes the relations.
    pub(crate) fn new(alloc: Global, relations: Vec<Relation>) -> Result<Known, AllocError>
        ensures { IfOk result (λ known. known ≡ relations.items) }
    {
        let mut oids = InodeMap::new(alloc);
        let mut tablespaces = InodeMap::new(alloc);
        let count = relations.len();
        for i in 0..count {
            match relations.get(i) {
                None => return Err(AllocError),
                Some(relation) => add_numbers(&mut oids, &mut tablespaces, relation)?,
            }
        }
        Ok(Known {
            relations,
            oids,
            tablespaces,
        })
    }

    /// The number of the relations.
    pub(crate) fn count(&self) -> usize
        ensures { result ≡ length self.now }
    {
        self.relations.len()
    }

    /// The relation at a place, counted from 0.
    pub(crate) fn relation_at(&self, n: usize) -> Option<&Relation>
        ensures { option_copied result ≡ slice_get self.now n }
    {
        self.relations.get(n)
    }

    /// Whether one has the OID.
    pub(crate) fn has(&self, oid: u32) -> bool
        ensures { result ≡ list_any (relation_has oid) self.now }
    {
        self.oids.get(oid as u64).is_some()
    }

    /// Whether one stands in the tablespace of the OID.
    pub(crate) fn stands_in(&self, tablespace: u32) -> bool
        ensures { result ≡ list_any (stands_in tablespace) self.now }
    {
        self.tablespaces.get(tablespace as u64).is_some()
    }
}

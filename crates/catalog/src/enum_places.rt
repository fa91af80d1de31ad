// Where the enums of a database stand, by what no two of them may share.
ghost use Rattle.std.specs.Prelude.{◌≡◌, ℕ, List, ◌&&◌, true, false, None, Some, OnOk, nat_eq, bytes_eq};
ghost use Rattle.std.specs.List.{list_any};
ghost use Rattle.object_places.specs.Places.{number_place, name_place};

use crate::enums::{EnumType, Label};
use object_places::{NamePlaces, NumberPlaces};
use std::alloc::{AllocError, Global};

#[derive(Drop)]
pub(crate) struct EnumPlaces {
    pub(crate) oids: NumberPlaces,
    pub(crate) names: NamePlaces,
    // by the OIDs of the labels
    pub(crate) labels: NumberPlaces,
}

// Notes the place of an enum by each of its labels.
fn put_labels(places: &mut NumberPlaces, labels: &[Label], place: usize) -> Result<(), AllocError>
    ensures others { (k : ℕ) → list_any (λ l. nat_eq k l.oid) labels.now ≡ false → number_place places.new k ≡ number_place places.old k }
    ensures placed { OnOk result ((k : ℕ) → list_any (λ l. nat_eq k l.oid) labels.now ≡ true → number_place places.new k ≡ Some place) }
{
    for label in labels {
        places.put(label.oid, place)?;
    }
    Ok(())
}

impl EnumPlaces {
    // Takes no memory.
    pub(crate) fn new(alloc: Global) -> EnumPlaces {
        EnumPlaces {
            oids: NumberPlaces::new(alloc),
            names: NamePlaces::new(alloc),
            labels: NumberPlaces::new(alloc),
        }
    }

    // Notes the place of an enum. Other keys than its own lead where they did, also where memory lacked.
    pub(crate) fn put(&mut self, kind: &EnumType, place: usize) -> Result<(), AllocError>
        ensures oids { (k : ℕ) → nat_eq k kind.now.oid ≡ false → number_place self.new.oids k ≡ number_place self.old.oids k }
        ensures names { (s k : List ℕ) → (bytes_eq s kind.now.schema && bytes_eq k kind.now.name) ≡ false → name_place self.new.names s k ≡ name_place self.old.names s k }
        ensures labels { (k : ℕ) → list_any (λ l. nat_eq k l.oid) kind.now.labels ≡ false → number_place self.new.labels k ≡ number_place self.old.labels k }
        ensures oid_placed { OnOk result ((k : ℕ) → nat_eq k kind.now.oid ≡ true → number_place self.new.oids k ≡ Some place) }
        ensures name_placed { OnOk result ((s k : List ℕ) → (bytes_eq s kind.now.schema && bytes_eq k kind.now.name) ≡ true → name_place self.new.names s k ≡ Some place) }
        ensures labels_placed { OnOk result ((k : ℕ) → list_any (λ l. nat_eq k l.oid) kind.now.labels ≡ true → number_place self.new.labels k ≡ Some place) }
    {
        self.oids.put(kind.oid, place)?;
        self.names.put(&kind.schema, &kind.name, place)?;
        put_labels(&mut self.labels, kind.labels.items(), place)
    }
}

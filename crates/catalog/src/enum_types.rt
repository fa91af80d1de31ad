// The enums of a database, in the order of their additions.
ghost use Rattle.std.specs.Prelude.{◌≡◌, ◌≢◌, ◌++◌, ◌∷◌, [], None, nat_eq, IsSome, OnOk, OnErr, IfErr};
ghost use Rattle.std.specs.Option.{option_copied};
ghost use Rattle.std.specs.List.{list_any, find, position};
ghost use Rattle.catalog.specs.Lists.{change_first};
ghost use Rattle.catalog.specs.Spaces.{enum_has, enum_label_oids, enum_name, same_name};
ghost use Rattle.catalog.specs.Forms.{has_enum};
ghost use Rattle.catalog.specs.Lookups.{enum_is};
ghost use Rattle.catalog.specs.Changes.{labelled};
ghost use Rattle.catalog.specs.Known.{EnumIsFree, LabelIsFree};

use crate::enum_places::EnumPlaces;
use crate::enums::{EnumType, Label};
use crate::error::CatalogError;
use crate::lists::{enum_has_label, enum_is_of, is_named};
use fs_model::Text;
use object_places::object_at;
use std::alloc::Global;
use std::marker::Model;

// A list of enums, in which one is found by what no two may share. A contract sees it as the list.
#[derive(Drop)]
pub(crate) struct EnumTypes {
    items: Vec<EnumType>,
    places: EnumPlaces,
}

impl Model for EnumTypes {
    ghost use Rattle.std.specs.Prelude.{List};
    ghost use Rattle.catalog.specs.declared.enums.EnumType.{EnumType};

    ghost Value = { List EnumType };

    ghost use Rattle.catalog.specs.Known.{EnumsKnown};

    ghost view = { λ a. a.items.items };

    ghost invariant = { λ a. EnumsKnown a.items.items a.places };
}

impl EnumTypes {
    // Takes no memory.
    pub(crate) fn new(alloc: Global) -> EnumTypes
        ensures { result ≡ [] }
    {
        EnumTypes {
            items: Vec::new(alloc),
            places: EnumPlaces::new(alloc),
        }
    }

    pub(crate) fn items(&self) -> &[EnumType]
        ensures { result.now ≡ self.now }
    {
        &self.items
    }

    // Adds an enum that shares nothing with those that stand.
    pub(crate) fn push(&mut self, kind: EnumType) -> Result<(), CatalogError>
        requires { EnumIsFree self.old kind }
        ensures ok { OnOk result (self.new ≡ self.old ++ kind ∷ []) }
        ensures error { IfErr result (λ e. e ≡ CatalogError.OutOfMemory) }
        ensures unchanged { OnErr result (self.new ≡ self.old) }
    {
        self.places.put(&kind, self.items.len())?;
        self.items.push(kind)?;
        Ok(())
    }

    // The place of the enum of an OID.
    fn place_of(&self, oid: u32) -> Option<usize>
        ensures { result ≡ position (enum_has oid) self.now }
    {
        let place = self.places.oids.get(oid);
        match object_at(&self.items, place) {
            Some(kind) if enum_is_of(kind, oid) => place,
            _ => None,
        }
    }

    // Adds a label behind those of the enum of an OID. No enum has a label of its OID.
    pub(crate) fn push_label(&mut self, kind: u32, label: Label) -> Result<(), CatalogError>
        requires { LabelIsFree self.old label }
        ensures ok { OnOk result (self.new ≡ change_first (enum_has kind) (labelled label) self.old) }
        ensures missing { IfErr result (λ e. e ≢ CatalogError.OutOfMemory → (e ≡ CatalogError.NoSuch) × (find (enum_has kind) self.old ≡ None)) }
        ensures lacking { IfErr result (λ e. e ≡ CatalogError.OutOfMemory → IsSome (find (enum_has kind) self.old)) }
        ensures unchanged { OnErr result (self.new ≡ self.old) }
    {
        let Some(place) = self.place_of(kind) else {
            return Err(CatalogError::NoSuch);
        };
        self.places.labels.put(label.oid, place)?;
        let found = &mut self.items[place];
        found.labels.push(label)?;
        Ok(())
    }

    pub(crate) fn of_oid(&self, oid: u32) -> Option<&EnumType>
        ensures { option_copied result ≡ find (enum_has oid) self.now }
    {
        match object_at(&self.items, self.places.oids.get(oid)) {
            Some(kind) if enum_is_of(kind, oid) => Some(kind),
            _ => None,
        }
    }

    // Whether there is an enum of that OID.
    pub(crate) fn stand(&self, oid: u32) -> bool
        ensures { result ≡ has_enum self.now oid }
    {
        match object_at(&self.items, self.places.oids.get(oid)) {
            Some(kind) => enum_is_of(kind, oid),
            None => false,
        }
    }

    pub(crate) fn named(&self, schema: &Text, name: &Text) -> Option<&EnumType>
        ensures { option_copied result ≡ find (enum_is schema.now name.now) self.now }
    {
        match object_at(&self.items, self.places.names.get(schema, name)) {
            Some(kind) if is_named(schema, name, &kind.schema, &kind.name) => Some(kind),
            _ => None,
        }
    }

    pub(crate) fn have_oid(&self, oid: u32) -> bool
        ensures { result ≡ list_any (λ k. nat_eq oid k.oid) self.now }
    {
        match object_at(&self.items, self.places.oids.get(oid)) {
            Some(kind) => oid == kind.oid,
            None => false,
        }
    }

    pub(crate) fn have_label(&self, oid: u32) -> bool
        ensures { result ≡ list_any (λ k. list_any (nat_eq oid) (enum_label_oids k)) self.now }
    {
        match object_at(&self.items, self.places.labels.get(oid)) {
            Some(kind) => enum_has_label(kind, oid),
            None => false,
        }
    }

    pub(crate) fn have_name(&self, schema: &Text, name: &Text) -> bool
        ensures { result ≡ list_any (λ k. same_name (record { schema = schema.now; name = name.now }) (enum_name k)) self.now }
    {
        match object_at(&self.items, self.places.names.get(schema, name)) {
            Some(kind) => is_named(schema, name, &kind.schema, &kind.name),
            None => false,
        }
    }
}

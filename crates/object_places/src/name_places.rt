// Places by name.
ghost use Rattle.std.specs.Prelude.{◌≡◌, ℕ, ◌&&◌, List, true, false, None, Some, OnOk, bytes_eq};
ghost use Rattle.object_places.specs.Places.{name_place};

use fs_model::Text;
use std::alloc::{AllocError, Global};
use std::collections::BTreeMap;

/// The place of an object by its name in a schema. A look takes no memory.
#[derive(Drop)]
pub struct NamePlaces {
    schemas: BTreeMap<Vec<u8>, BTreeMap<Vec<u8>, usize>>,
    alloc: Global,
}

impl NamePlaces {
    /// Takes no memory.
    pub fn new(alloc: Global) -> NamePlaces
        ensures { (s q : List ℕ) → name_place result s q ≡ None }
    {
        NamePlaces {
            schemas: BTreeMap::new(alloc),
            alloc,
        }
    }

    /// The place that a name in a schema has, if any.
    pub fn get(&self, schema: &Text, name: &Text) -> Option<usize>
        ensures { result ≡ name_place self.now schema.now name.now }
    {
        match self.schemas.get(schema.bytes()) {
            Some(names) => names.get(name.bytes()).copied(),
            None => None,
        }
    }

    /// Gives a name in a schema a place. The others keep theirs, also where memory lacked.
    pub fn put(&mut self, schema: &Text, name: &Text, place: usize) -> Result<(), AllocError>
        ensures others { (s q : List ℕ) → (bytes_eq s schema.now && bytes_eq q name.now) ≡ false → name_place self.new s q ≡ name_place self.old s q }
        ensures placed { OnOk result ((s q : List ℕ) → (bytes_eq s schema.now && bytes_eq q name.now) ≡ true → name_place self.new s q ≡ Some place) }
    {
        let key = Vec::from_slice(self.alloc, name.bytes())?;
        if let Some(names) = self.schemas.get_mut(schema.bytes()) {
            names.insert(key, place)?;
            return Ok(());
        }
        let mut names = BTreeMap::new(self.alloc);
        names.insert(key, place)?;
        let schema = Vec::from_slice(self.alloc, schema.bytes())?;
        self.schemas.insert(schema, names)?;
        Ok(())
    }
}

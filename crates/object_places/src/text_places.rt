// Places by text.
ghost use Rattle.std.specs.Prelude.{◌≡◌, ℕ, List, true, false, None, Some, OnOk, bytes_eq};
ghost use Rattle.object_places.specs.Places.{text_place};

use fs_model::Text;
use std::alloc::{AllocError, Global};
use std::collections::BTreeMap;

/// The place of an object by its name. A look takes no memory.
#[derive(Drop)]
pub struct TextPlaces {
    places: BTreeMap<Vec<u8>, usize>,
    alloc: Global,
}

impl TextPlaces {
    /// Takes no memory.
    pub fn new(alloc: Global) -> TextPlaces
        ensures { (q : List ℕ) → text_place result q ≡ None }
    {
        TextPlaces {
            places: BTreeMap::new(alloc),
            alloc,
        }
    }

    /// The place that a name has, if any.
    pub fn get(&self, name: &Text) -> Option<usize>
        ensures { result ≡ text_place self.now name.now }
    {
        self.places.get(name.bytes()).copied()
    }

    /// Gives a name a place. The others keep theirs, also where memory lacked.
    pub fn put(&mut self, name: &Text, place: usize) -> Result<(), AllocError>
        ensures others { (q : List ℕ) → bytes_eq q name.now ≡ false → text_place self.new q ≡ text_place self.old q }
        ensures placed { OnOk result ((q : List ℕ) → bytes_eq q name.now ≡ true → text_place self.new q ≡ Some place) }
    {
        let key = Vec::from_slice(self.alloc, name.bytes())?;
        self.places.insert(key, place)?;
        Ok(())
    }
}

// Places by number.
ghost use Rattle.std.specs.Prelude.{◌≡◌, ℕ, true, false, None, Some, OnOk, nat_eq};
ghost use Rattle.std.specs.List.{list_any};
ghost use Rattle.object_places.specs.Places.{number_place};

use std::alloc::{AllocError, Global};
use std::collections::BTreeMap;

/// The place of an object by a number that it has. A look and an addition cost the logarithm of the numbers.
#[derive(Drop)]
pub struct NumberPlaces {
    places: BTreeMap<u32, usize>,
}

impl NumberPlaces {
    /// Takes no memory.
    pub fn new(alloc: Global) -> NumberPlaces
        ensures { (q : ℕ) → number_place result q ≡ None }
    {
        NumberPlaces {
            places: BTreeMap::new(alloc),
        }
    }

    /// The place that a number has, if any.
    pub fn get(&self, number: u32) -> Option<usize>
        ensures { result ≡ number_place self.now number }
    {
        self.places.get(&number).copied()
    }

    /// Gives a number a place. The others keep theirs, also where memory lacked.
    pub fn put(&mut self, number: u32, place: usize) -> Result<(), AllocError>
        ensures others { (q : ℕ) → nat_eq q number ≡ false → number_place self.new q ≡ number_place self.old q }
        ensures placed { OnOk result ((q : ℕ) → nat_eq q number ≡ true → number_place self.new q ≡ Some place) }
    {
        self.places.insert(number, place)?;
        Ok(())
    }

    /// Gives each of the numbers a place. The others keep theirs, also where memory lacked.
    pub fn put_each(&mut self, numbers: &[u32], place: usize) -> Result<(), AllocError>
        ensures others { (q : ℕ) → list_any (nat_eq q) numbers.now ≡ false → number_place self.new q ≡ number_place self.old q }
        ensures placed { OnOk result ((q : ℕ) → list_any (nat_eq q) numbers.now ≡ true → number_place self.new q ≡ Some place) }
    {
        for number in numbers {
            self.put(*number, place)?;
        }
        Ok(())
    }
}

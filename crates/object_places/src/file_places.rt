// Places by file.
ghost use Rattle.std.specs.Prelude.{◌≡◌, ℕ, ◌&&◌, true, false, None, Some, OnOk, nat_eq};
ghost use Rattle.std.specs.List.{list_any};
ghost use Rattle.object_places.specs.Places.{file_place};

use std::alloc::{AllocError, Global};
use std::collections::BTreeMap;

/// The place of an object by a file number that it has in a tablespace.
#[derive(Drop)]
pub struct FilePlaces {
    places: BTreeMap<(u32, u32), usize>,
}

impl FilePlaces {
    /// Takes no memory.
    pub fn new(alloc: Global) -> FilePlaces
        ensures { (t q : ℕ) → file_place result t q ≡ None }
    {
        FilePlaces {
            places: BTreeMap::new(alloc),
        }
    }

    /// The place that a file number of a tablespace has, if any.
    pub fn get(&self, tablespace: u32, number: u32) -> Option<usize>
        ensures { result ≡ file_place self.now tablespace number }
    {
        self.places.get(&(tablespace, number)).copied()
    }

    /// Gives a file number of a tablespace a place. The others keep theirs, also where memory lacked.
    pub fn put(&mut self, tablespace: u32, number: u32, place: usize) -> Result<(), AllocError>
        ensures others { (t q : ℕ) → (nat_eq t tablespace && nat_eq q number) ≡ false → file_place self.new t q ≡ file_place self.old t q }
        ensures placed { OnOk result ((t q : ℕ) → (nat_eq t tablespace && nat_eq q number) ≡ true → file_place self.new t q ≡ Some place) }
    {
        self.places.insert((tablespace, number), place)?;
        Ok(())
    }

    /// Gives each of the file numbers of a tablespace a place. The others keep theirs, also where memory lacked.
    pub fn put_each(
        &mut self,
        tablespace: u32,
        numbers: &[u32],
        place: usize,
    ) -> Result<(), AllocError>
        ensures others { (t q : ℕ) → (nat_eq t tablespace && list_any (nat_eq q) numbers.now) ≡ false → file_place self.new t q ≡ file_place self.old t q }
        ensures placed { OnOk result ((t q : ℕ) → (nat_eq t tablespace && list_any (nat_eq q) numbers.now) ≡ true → file_place self.new t q ≡ Some place) }
    {
        for number in numbers {
            self.put(tablespace, *number, place)?;
        }
        Ok(())
    }
}

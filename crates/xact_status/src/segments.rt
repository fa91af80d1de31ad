ghost use Rattle.std.specs.Prelude.{◌≡◌, ◌≤◌, ℕ, IfOk, OnOk, IfErr, is_some, min};
ghost use Rattle.std.specs.Option.{option_map, option_map_or};
ghost use Rattle.std.specs.FinMap as map;
ghost use Rattle.xact_status.specs.Files as spec;
ghost use Rattle.xact_status.specs.Parts.{count_of, IsCause};

use crate::error::SegmentsError;
use fs_model::Bytes;
use std::alloc::{AllocError, Global};
use std::collections::BTreeMap;
use std::marker::Model;

/// The segment files of a log such as `pg_xact` (`src/include/access/slru.h`), by their numbers. A contract sees a
/// finite map from numbers to lists of bytes.
#[derive(Drop)]
pub struct Segments {
    files: BTreeMap<u32, Bytes>,
}

impl Model for Segments {
    ghost use Rattle.std.specs.Prelude.{List, ℕ};
    ghost use Rattle.std.specs.Coded.{coded_ℕ, coded_list};
    ghost use Rattle.std.specs.FinMap as map;
    ghost use Rattle.std.specs.Ordering.{nat_cmp};

    ghost Value = { map.FinMap nat_cmp (List ℕ) };

    ghost coded = { map.code coded_ℕ (coded_list coded_ℕ) };

    ghost view = { λ a. map.from_entries a.files.entries };
}

impl Segments {
    /// Makes segments of their numbers and bytes.
    pub fn new(alloc: Global, parts: Vec<(u32, Bytes)>) -> Result<Segments, SegmentsError>
        ensures ok { IfOk result (λ segments. segments ≡ map.from_entries parts.items) }
        ensures once { OnOk result ((number : ℕ) → count_of number parts.items ≤ 1) }
        ensures cause { IfErr result (λ error. IsCause parts.items error) }
    {
        let mut segments = Segments {
            files: BTreeMap::new(alloc),
        };
        let mut twice = None;
        for (number, bytes) in parts {
            if segments.insert(number, bytes)? {
                twice = lesser(twice, number);
            }
        }
        match twice {
            Some(number) => Err(SegmentsError::Twice(number)),
            None => Ok(segments),
        }
    }

    /// Lends the bytes of a segment. None where no part has that number.
    pub fn bytes(&self, number: u32) -> Option<&[u8]>
        ensures { option_map (λ bytes. bytes.now) result ≡ map.get self.now number }
    {
        match self.files.get(&number) {
            Some(bytes) => Some(bytes.bytes()),
            None => None,
        }
    }

    /// A byte of a segment. None where the segment is absent or ends before that byte.
    pub fn byte_at(&self, segment: u32, byte: u32) -> Option<u8>
        ensures { result ≡ spec.byte_at (map.get self.now) segment byte }
    {
        let bytes = self.bytes(segment)?;
        bytes.get(byte as usize).copied()
    }

    // Puts the bytes of a segment, and answers whether its number was there before.
    fn insert(&mut self, number: u32, bytes: Bytes) -> Result<bool, AllocError>
        ensures put { OnOk result (self.new ≡ map.insert self.old number bytes) }
        ensures was { IfOk result (λ was. was ≡ is_some (map.get self.old number)) }
    {
        Ok(self.files.insert(number, bytes)?.is_some())
    }
}

// The lesser of a number and another, where there is one.
fn lesser(other: Option<u32>, number: u32) -> Option<u32>
    ensures { result ≡ Some (option_map_or (λ known. min known number) other number) }
{
    match other {
        Some(known) => Some(known.min(number)),
        None => Some(number),
    }
}

// The chunks of one value.
ghost use Rattle.std.specs.Prelude.{◌≡◌, ◌≢◌, ◌+◌, ◌<◌, ◌≤◌, ◌^◌, ◌++◌, ◌∷◌, [], Ok, Err, IfOk, IfErr, OnOk, ℕ, max, position, length};
ghost use Rattle.std.specs.List.{range_with_len, flat_map, list_any};
ghost use Rattle.std.specs.FinMap as map;
ghost use Rattle.std.specs.Ordering.{nat_cmp};
ghost use Rattle.toast_read.specs.declared.error.ToastError.TheVariants.{OutOfMemory};
ghost use Rattle.toast_read.specs.Chunks.{has_seq, bytes_at, seq_end, is_absent, is_twice, least_below, first_absent, first_twice, joined, joined_of_size, of_size};
ghost use Rattle.std.specs.Prelude.{◌==◌, ◌||◌, ◌&&◌, cond, is_some, Some, None};
ghost use Rattle.std.specs.BTreeMap.{get};
ghost use Rattle.toast_read.specs.Places.{TellsPlaces, or_else};

use crate::chunk::Chunk;
use crate::error::ToastError;
use std::alloc::{AllocError, Global};
use std::collections::BTreeMap;

// Where the chunk of each number stands, and the numbers that come twice.
#[derive(Drop)]
struct Numbers {
    places: BTreeMap<u32, usize>,
    twice: BTreeMap<u32, ()>,
}

// The number behind the greatest.
fn end_of(parts: &[Chunk]) -> u64
    ensures end { result ≡ seq_end parts.now }
    ensures within { result ≤ 2 ^ 32 }
{
    let mut end = 0u64;
    let mut rest = parts;
    while let [part, behind @ ..] = rest {
        end = end.max(part.seq as u64 + 1);
        rest = behind;
    }
    end
}

// Notes the number of a chunk at a place.
fn note(numbers: &mut Numbers, seq: u32, place: usize) -> Result<(), AllocError>
    ensures places { OnOk result ((q : ℕ) → get nat_cmp numbers.new.places q ≡ or_else (get nat_cmp numbers.old.places q) (cond (seq == q) (Some place) None)) }
    ensures twice { OnOk result ((q : ℕ) → is_some (get nat_cmp numbers.new.twice q)
        ≡ (is_some (get nat_cmp numbers.old.twice q) || (is_some (get nat_cmp numbers.old.places q) && (seq == q)))) }
{
    if numbers.places.contains_key(&seq) {
        numbers.twice.insert(seq, ())?;
    } else {
        numbers.places.insert(seq, place)?;
    }
    Ok(())
}

fn numbers_of(alloc: Global, parts: &[Chunk]) -> Result<Numbers, AllocError>
    ensures { IfOk result (λ numbers. TellsPlaces parts.now numbers) }
{
    let mut numbers = Numbers {
        places: BTreeMap::new(alloc),
        twice: BTreeMap::new(alloc),
    };
    for place in 0..parts.len() {
        let part = &parts[place];
        note(&mut numbers, part.seq, place)?;
    }
    Ok(numbers)
}

// The least number below `end` that no chunk has.
#[tactic(auto, using(crate::proofs::Least::least_here, crate::proofs::Least::least_next, crate::proofs::Least::least_none))]
fn absent(parts: &[Chunk], numbers: &Numbers, end: u64) -> Option<u32>
    requires tells { TellsPlaces parts.now numbers.now }
    requires within { end ≤ 2 ^ 32 }
    ensures { result ≡ least_below end (is_absent parts.now) }
{
    for seq in 0..end {
        if !numbers.places.contains_key(&(seq as u32)) {
            return Some(seq as u32);
        }
    }
    None
}

// The least number below `end` that two chunks have.
#[tactic(auto, using(crate::proofs::Least::least_here, crate::proofs::Least::least_next, crate::proofs::Least::least_none))]
fn twice(parts: &[Chunk], numbers: &Numbers, end: u64) -> Option<u32>
    requires tells { TellsPlaces parts.now numbers.now }
    requires within { end ≤ 2 ^ 32 }
    ensures { result ≡ least_below end (is_twice parts.now) }
{
    for seq in 0..end {
        if numbers.twice.contains_key(&(seq as u32)) {
            return Some(seq as u32);
        }
    }
    None
}

// The bytes of the chunk of a number, none where it is absent.
fn part_at<'a>(parts: &'a [Chunk], numbers: &Numbers, seq: u32) -> &'a [u8]
    requires { TellsPlaces parts.now numbers.now }
    ensures { result.now ≡ bytes_at parts.now seq }
{
    let Some(place) = numbers.places.get(&seq) else {
        return &[];
    };
    match parts.get(*place) {
        Some(part) => part.bytes.bytes(),
        None => &[],
    }
}

// The bytes of the chunks in the order of their numbers.
#[tactic(auto, using(crate::proofs::Least::joined_next, crate::proofs::Least::joined_none))]
fn bytes_of(
    alloc: Global,
    parts: &[Chunk],
    numbers: &Numbers,
    end: u64,
) -> Result<Vec<u8>, AllocError>
    requires tells { TellsPlaces parts.now numbers.now }
    requires within { end ≤ 2 ^ 32 }
    ensures { IfOk result (λ bytes. bytes.items ≡ flat_map (bytes_at parts.now) (range_with_len 0 end)) }
{
    let mut bytes = Vec::new(alloc);
    for seq in 0..end {
        bytes.extend_from_slice(part_at(parts, numbers, seq as u32))?;
    }
    Ok(bytes)
}

// The bytes of a value of this size that has these chunks.
#[tactic(auto, unfolding(crate::specs::Chunks::joined_of_size))]
pub(crate) fn join(alloc: Global, parts: &[Chunk], size: u32) -> Result<Vec<u8>, ToastError>
    ensures value { IfOk result (λ value. joined_of_size size parts.now ≡ Ok value.items) }
    ensures error { IfErr result (λ error. error ≢ OutOfMemory → joined_of_size size parts.now ≡ Err error) }
{
    let end = end_of(parts);
    let numbers = numbers_of(alloc, parts)?;
    if let Some(seq) = absent(parts, &numbers, end.max(1)) {
        return Err(ToastError::NoChunk(seq));
    }
    if let Some(seq) = twice(parts, &numbers, end) {
        return Err(ToastError::Twice(seq));
    }
    let bytes = bytes_of(alloc, parts, &numbers, end)?;
    let have = bytes.len() as u64;
    if have == size as u64 {
        Ok(bytes)
    } else {
        Err(ToastError::Size(size, have))
    }
}

ghost use Rattle.std.specs.Prelude.{◌≡◌, ◌↔◌, ℕ, ◌+◌, ◌*◌, ◌^◌, ◌≤◌, ◌%◌, ◌<◌, List, Some, Contains, map};
ghost use Rattle.std.specs.List.Sorted.{IsStrictlyIncreasing};
ghost use Rattle.heap_page.specs.Line.{flags_of, pointer_of, tuple};
ghost use Rattle.heap_page.specs.Page.{items_of, item_at};
ghost use Rattle.heap_page.specs.Map.{map_byte, map_shift};

use crate::layout::{
    LINE_POINTER_SIZE, LOWER_AT, MAP_BLOCKS_PER_BYTE, MAP_BLOCKS_PER_PAGE, PAGE_HEADER_SIZE,
    PAGE_SIZE, SIZE_VERSION, SIZE_VERSION_AT, SPECIAL_AT, UPPER_AT,
};

/// The constants that the definitions cite are the format's numbers.
pub fn layout_law()
    ensures sizes { (PAGE_SIZE ≡ 8192) × (PAGE_HEADER_SIZE ≡ 24) × (LINE_POINTER_SIZE ≡ 4) }
    ensures header { (LOWER_AT ≡ 12) × (UPPER_AT ≡ 14) × (SPECIAL_AT ≡ 16) × (SIZE_VERSION_AT ≡ 18) × (SIZE_VERSION ≡ 8196) }
    ensures map { (MAP_BLOCKS_PER_BYTE ≡ 4) × (MAP_BLOCKS_PER_PAGE ≡ 32672) }
{}

/// A law of the definition `pointer_of`: offset, flags and length are all of a line pointer's bits,
/// from the lowest on.
pub fn pointer_law()
    ensures whole { (bits : ℕ) → (let pointer = pointer_of bits in
        pointer.offset + 2 ^ 15 * flags_of pointer.state + 2 ^ 17 * pointer.length ≡ bits) }
    ensures offset_bits { (bits : ℕ) → (pointer_of bits).offset < 2 ^ 15 }
{}

/// A law of the definition `items_of`: it has each line whose item is a tuple, with the bytes of
/// that tuple, and no other pair; and its lines rise.
pub fn items_law()
    ensures exact { (page : List ℕ) (line : ℕ) (bytes : List ℕ) →
        (Contains (items_of page) (line, bytes) ↔ (item_at page line ≡ Some (tuple bytes))) }
    ensures in_order { (page : List ℕ) →
        IsStrictlyIncreasing (map (λ item. item.0) (items_of page)) }
{}

/// A law of the places in the visibility map: no block's bits stand in a page header, and no two
/// blocks have the same bits.
pub fn map_law()
    ensures behind_header { (block : ℕ) → PAGE_HEADER_SIZE ≤ map_byte block % PAGE_SIZE }
    ensures within_byte { (block : ℕ) → map_shift block < 8 }
    ensures distinct { (a b : ℕ) → map_byte a ≡ map_byte b → map_shift a ≡ map_shift b → a ≡ b }
{}

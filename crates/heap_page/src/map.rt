ghost use Rattle.std.specs.Prelude.{◌≡◌, ◌↔◌, ◌<◌, ◌≤◌, length, IsNone, IfSome};
ghost use Rattle.heap_page.specs.Map.{bits_of, map_byte};

use crate::layout::{MAP_BLOCKS_PER_BYTE, MAP_BLOCKS_PER_PAGE, PAGE_HEADER_SIZE, PAGE_SIZE};

/// The visibility bits of a heap block, 0 to 3: 1 says that all of the block's tuples are visible
/// to every transaction, 2 that they are frozen. None where the map, the bytes of a fork `_vm`,
/// ends before the byte that has them (`src/backend/access/heap/visibilitymap.c`).
pub fn map_bits(vm: &[u8], block: u32) -> Option<u8>
    ensures bits { result ≡ bits_of vm.now block }
    ensures absent { IsNone result ↔ (length vm.now ≤ map_byte block) }
    ensures two_bits { IfSome result (λ bits. bits < 4) }
{
    let page = (block / MAP_BLOCKS_PER_PAGE) as usize;
    let byte = (block % MAP_BLOCKS_PER_PAGE / MAP_BLOCKS_PER_BYTE) as usize;
    let place = page * PAGE_SIZE + PAGE_HEADER_SIZE + byte;
    let bits = vm.get(place)?;
    Some(bits >> (2 * (block % MAP_BLOCKS_PER_BYTE)) & 3)
}

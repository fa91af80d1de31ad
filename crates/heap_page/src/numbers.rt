ghost use Rattle.std.specs.Prelude.{◌≡◌, ◌+◌, ◌≤◌, length};
ghost use Rattle.heap_page.specs.Numbers as spec;

use byteorder::{ByteOrder, LittleEndian};

// The number of two bytes at a place, the low byte first.
pub(crate) fn u16_at(bytes: &[u8], place: usize) -> u16
    requires { place + 2 ≤ length bytes.now }
    ensures { result ≡ spec.u16_at bytes.now place }
{
    LittleEndian::read_u16(&bytes[place..])
}

// The number of four bytes at a place, the low byte first.
pub(crate) fn u32_at(bytes: &[u8], place: usize) -> u32
    requires { place + 4 ≤ length bytes.now }
    ensures { result ≡ spec.u32_at bytes.now place }
{
    LittleEndian::read_u32(&bytes[place..])
}

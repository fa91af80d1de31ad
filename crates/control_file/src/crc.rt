//! CRC-32C (Castagnoli), the checksum of the control record.

ghost use Rattle.std.specs.Prelude.{◌≡◌, ◌↔◌, ℕ, List, slice_index};
ghost use Rattle.control_file.specs.Crc.{IsCrc, bits, crc_of, register_after};

use crate::crc_table::REMAINDERS;

/// The CRC-32C of the bytes: generator 0x1EDC6F41 (0x82F63B78 with the lowest bit first), register and result
/// changed by 0xFFFFFFFF (RFC 3720, appendix B.4; PostgreSQL's `src/include/port/pg_crc32c.h`). It takes one look-up
/// for each byte.
pub fn crc32c(bytes: &[u8]) -> u32
    ensures value { result ≡ crc_of bytes.now }
    ensures remainder { IsCrc bytes.now result }
{
    let mut register = u32::MAX;
    for byte in bytes {
        register = after_byte(register, *byte);
    }
    register ^ u32::MAX
}

/// The register after the eight bits of one more byte.
fn after_byte(register: u32, byte: u8) -> u32
    ensures { result ≡ register_after register (bits 8 byte) }
{
    let lowest = (register ^ u32::from(byte)) & 0xff;
    remainder_of(lowest as u8) ^ (register >> 8)
}

/// The register after eight bits, where it began with this byte alone and the bits are zeros.
fn remainder_of(byte: u8) -> u32
    ensures { result ≡ slice_index REMAINDERS byte }
{
    REMAINDERS[usize::from(byte)]
}

/// A law, with nothing to run: of each list of bytes the register gives the one number that the division of
/// polynomials defines.
pub fn crc_is_the_only_remainder()
    ensures { (bytes : List ℕ) (c : ℕ) → IsCrc bytes c ↔ (c ≡ crc_of bytes) }
{}

ghost use Rattle.std.specs.Prelude.{◌≡◌, ◌≢◌, ◌↔◌, ◌<◌, ◌≤◌, length, IsOk};
ghost use Rattle.heap_tuple.specs.Header.{HasHeader, header_of, header_fields, bitmap_bytes};

use crate::error::TupleError;
use crate::layout::{
    ATTRIBUTES_MASK, CID_AT, CTID_BLOCK_AT, CTID_LINE_AT, HASNULL, HEADER_SIZE, HOFF_AT,
    INFOMASK_AT, INFOMASK2_AT, XMAX_AT, XMIN_AT,
};
use crate::numbers::{u16_at, u32_at};

/// The header of a tuple, `HeapTupleHeaderData` in `src/include/access/htup_details.h`.
#[derive(Clone, Copy, Debug, PartialEq, Eq)]
pub struct Header {
    /// The inserting transaction id.
    pub xmin: u32,
    /// The deleting or locking transaction id, or a multixact id.
    pub xmax: u32,
    /// The command id.
    pub cid: u32,
    /// The block of this tuple or of its newer version.
    pub block: u32,
    /// The line of this tuple or of its newer version, in that block.
    pub line: u16,
    /// How many attributes the tuple stores: the low 11 bits of `infomask2`.
    pub attributes: u16,
    /// The bits named `HASNULL` and so on.
    pub infomask: u16,
    /// The attribute count and further bits.
    pub infomask2: u16,
    /// Where the data begins, in bytes from the start of the tuple.
    pub hoff: u8,
}

impl Header {
    /// Reads the header of a tuple.
    pub fn read(tuple: &[u8]) -> Result<Header, TupleError>
        ensures header { result ≡ header_of tuple.now }
        ensures found { IsOk result ↔ HasHeader tuple.now }
        ensures short { (result ≡ Err TupleError.Short) ↔ (length tuple.now < HEADER_SIZE) }
        ensures never_bad_length { result ≢ Err TupleError.BadLength }
    {
        if tuple.len() < HEADER_SIZE {
            return Err(TupleError::Short);
        }
        let header = fields(tuple);
        let hoff = header.hoff as usize;
        if hoff < HEADER_SIZE || hoff > tuple.len() {
            return Err(TupleError::BadOffset);
        }
        if header.infomask & HASNULL != 0 && hoff < HEADER_SIZE + bitmap_size(header.attributes) {
            return Err(TupleError::BadOffset);
        }
        Ok(header)
    }
}

// The fields of a header.
fn fields(tuple: &[u8]) -> Header
    requires { HEADER_SIZE ≤ length tuple.now }
    ensures { result ≡ header_fields tuple.now }
{
    let upper = u32::from(u16_at(tuple, CTID_BLOCK_AT));
    let lower = u32::from(u16_at(tuple, CTID_BLOCK_AT + 2));
    let infomask2 = u16_at(tuple, INFOMASK2_AT);
    Header {
        xmin: u32_at(tuple, XMIN_AT),
        xmax: u32_at(tuple, XMAX_AT),
        cid: u32_at(tuple, CID_AT),
        block: upper * 0x1_0000 + lower,
        line: u16_at(tuple, CTID_LINE_AT),
        attributes: infomask2 & ATTRIBUTES_MASK,
        infomask: u16_at(tuple, INFOMASK_AT),
        infomask2,
        hoff: tuple[HOFF_AT],
    }
}

// How many bytes the null bitmap of so many attributes has.
fn bitmap_size(attributes: u16) -> usize
    ensures { result ≡ bitmap_bytes attributes }
{
    (attributes as usize).div_ceil(8)
}

// The file of a table: one page with its rows, or no byte where it has none (PostgreSQL's `bufpage.h` and
// `htup_details.h`).
ghost use Rattle.std.specs.Prelude.{◌≡◌, ◌≤◌, ◌<◌, ◌++◌, IfOk, OnOk};
ghost use Rattle.cluster_gen.specs.Page.{is_deleted, deleter_of, infomask_of, row, rows_below, line_pointer, line_pointers, header, page, table_file};

use crate::numbers::{put_u16s, put_u32, put_u32s, put_zeros};
use std::alloc::{AllocError, Global};

// The transactions that insert and delete rows.
const INSERTER: u32 = 700;

const DELETER: u32 = 701;

// Whether the row of a line is deleted: each third is.
fn is_deleted(line: u16) -> bool
    ensures { result ≡ is_deleted line }
{
    line % 3 == 0
}

fn deleter_of(line: u16) -> u32
    ensures { result ≡ deleter_of line }
{
    if is_deleted(line) { DELETER } else { 0 }
}

// Each row has a column of variable width; one that isn't deleted has an invalid xmax too.
fn infomask_of(line: u16) -> u16
    ensures { result ≡ infomask_of line }
{
    if is_deleted(line) { 0x0002 } else { 0x0802 }
}

// A tuple of the columns `id int4` and `note text`, the line's number and one letter, and what aligns it.
#[tactic(auto, unfolding(crate::specs::Page::row))]
fn put_row(out: &mut Vec<u8>, line: u16) -> Result<(), AllocError>
    ensures { OnOk result (out.new.items ≡ out.old.items ++ row line) }
{
    put_u32s(out, &[INSERTER, deleter_of(line), 0, 0])?; // xmin, xmax, cid, the block of ctid
    put_u16s(out, &[line, 2, infomask_of(line)])?; // the line of ctid, infomask2, infomask
    out.extend_from_slice(&[24, 0])?; // hoff
    put_u32(out, u32::from(line))?;
    out.extend_from_slice(&[0x05, 0x61, 0, 0])?;
    Ok(())
}

// The rows from the last to the first, as they stand on a page.
#[tactic(auto, unfolding(crate::specs::Page::rows_below))]
fn put_rows(out: &mut Vec<u8>, count: u16) -> Result<(), AllocError>
    ensures { OnOk result (out.new.items ≡ out.old.items ++ rows_below count count) }
{
    for above in 0..count {
        put_row(out, count - above)?;
    }
    Ok(())
}

// A normal line with a tuple of 30 bytes; the tuples stand at the page's end, one below another.
fn line_pointer(line: u16) -> u32
    requires { line ≤ 6 }
    ensures { result ≡ line_pointer line }
{
    (30 << 17) + (1 << 15) + (8192 - 32 * u32::from(line))
}

#[tactic(auto, unfolding(crate::specs::Page::line_pointers))]
fn put_line_pointers(out: &mut Vec<u8>, count: u16) -> Result<(), AllocError>
    requires { count ≤ 6 }
    ensures { OnOk result (out.new.items ≡ out.old.items ++ line_pointers count) }
{
    for line in 0..count {
        put_u32(out, line_pointer(line + 1))?;
    }
    Ok(())
}

#[tactic(auto, unfolding(crate::specs::Page::header))]
fn put_header(out: &mut Vec<u8>, count: u16) -> Result<(), AllocError>
    requires { count ≤ 6 }
    ensures { OnOk result (out.new.items ≡ out.old.items ++ header count) }
{
    put_zeros(out, 12)?; // lsn, checksum, flags
    put_u16s(out, &[24 + 4 * count, 8192 - 32 * count, 8192, 8196])?; // lower, upper, special, size and version
    put_zeros(out, 4) // prune xid
}

#[tactic(auto, unfolding(crate::specs::Page::page))]
fn put_page(out: &mut Vec<u8>, count: u16) -> Result<(), AllocError>
    requires { count ≤ 6 }
    ensures { OnOk result (out.new.items ≡ out.old.items ++ page count) }
{
    put_header(out, count)?;
    put_line_pointers(out, count)?;
    put_zeros(out, 8168 - 36 * usize::from(count))?;
    put_rows(out, count)?;
    Ok(())
}

/// The bytes of the first segment of the table of a number, which has as many rows as the number modulo 7.
pub fn table_file(alloc: Global, table: u32) -> Result<Vec<u8>, AllocError>
    ensures { IfOk result (λ bytes. bytes.items ≡ table_file table) }
{
    let count = (table % 7) as u16;
    let mut bytes = Vec::new(alloc);
    if count > 0 {
        put_page(&mut bytes, count)?;
    }
    Ok(bytes)
}

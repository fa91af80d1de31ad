// The rows of a block.
ghost use Rattle.std.specs.Prelude.{◌≡◌, ◌++◌, ◌∷◌, [], ◌+◌, ◌-◌, ◌^◌, ◌≤◌, min, length, if◌then◌else◌, IfOk, OnOk, Ok, Err};
ghost use Rattle.heap_page.specs.Page.{page_error};
ghost use Rattle.heap_tuple.specs.Header.{header_of};
ghost use Rattle.cluster_meaning.specs.Meaning.{seen_under, tuple_seen};
ghost use Rattle.std.specs.List.{cons_option};
ghost use Rattle.block_rows.specs.Sources.{source_of, reading_of};
ghost use Rattle.block_rows.specs.Rows.{row_of, counted, block_rows, block_unread, block_counted};

use crate::rows::{Row, Rows};
use crate::source::Source;
use crate::values::read_values;
use heap_page::Page;
use heap_tuple::Header;
use std::alloc::{AllocError, Global};
use visibility::{Lookup, Seen, Snapshot, visible};

// What a snapshot sees of a tuple.
fn seen<L: Lookup>(tuple: &[u8], snapshot: &Snapshot, look: &L) -> Seen
    ensures { result ≡ seen_under (L.fates look.now) (L.updaters look.now) snapshot.now (header_of tuple.now) }
{
    match Header::read(tuple) {
        Ok(header) => visible(&header, snapshot, look),
        Err(_) => Seen::Unknown,
    }
}

/// What reads the tuples of a table for a snapshot.
#[derive(Drop)]
pub struct Reader<'a, L> {
    pub source: Source<'a>,
    pub look: &'a L,
    pub snapshot: &'a Snapshot,
}

// Adds what the snapshot sees of a tuple.
fn add_tuple<L: Lookup>(
    alloc: Global,
    reader: &Reader<L>,
    block: u32,
    line: u16,
    tuple: &[u8],
    rows: &mut Rows,
) -> Result<(), AllocError>
    requires { length reader.now.source.shapes.now ≡ length reader.now.source.columns.now }
    ensures rows { let reading = reading_of reader.now.source (L.fates reader.now.look.now) (L.updaters reader.now.look.now) in
        OnOk result (rows.new.rows.items ≡ rows.old.rows.items ++ cons_option (row_of reading reader.now.snapshot.now block (line, tuple.now)) []) }
    ensures unread { OnOk result (rows.new.unread.items ≡ rows.old.unread.items) }
    ensures unknown { let reading = reading_of reader.now.source (L.fates reader.now.look.now) (L.updaters reader.now.look.now) in
        OnOk result (rows.new.unknown ≡ counted (tuple_seen reading reader.now.snapshot.now tuple.now) rows.old.unknown) }
{
    match seen(tuple, reader.snapshot, reader.look) {
        Seen::Yes => {
            let values = read_values(alloc, &reader.source, tuple)?;
            rows.rows.push(Row {
                block,
                line,
                values,
            })?;
        }
        Seen::No => {}
        Seen::Unknown => rows.unknown = rows.unknown.saturating_add(1),
    }
    Ok(())
}

/// Adds what the snapshot sees of a block.
pub fn add_block<L: Lookup>(
    alloc: Global,
    reader: &Reader<L>,
    number: u32,
    block: &[u8],
    rows: &mut Rows,
) -> Result<(), AllocError>
    requires { length reader.now.source.shapes.now ≡ length reader.now.source.columns.now }
    ensures rows { let reading = reading_of reader.now.source (L.fates reader.now.look.now) (L.updaters reader.now.look.now) in
        OnOk result (rows.new.rows.items ≡ rows.old.rows.items ++ block_rows reading reader.now.snapshot.now number block.now) }
    ensures unread { OnOk result (rows.new.unread.items ≡ rows.old.unread.items ++ block_unread number (page_error block.now)) }
    ensures unknown { let reading = reading_of reader.now.source (L.fates reader.now.look.now) (L.updaters reader.now.look.now) in
        OnOk result (rows.new.unknown ≡ block_counted reading reader.now.snapshot.now block.now rows.old.unknown) }
{
    let Ok(page) = Page::over(block) else {
        rows.unread.push(number)?;
        return Ok(());
    };
    for (line, tuple) in page.items() {
        add_tuple(alloc, reader, number, line, tuple, rows)?;
    }
    Ok(())
}

// The rows of a page, by the readers of pages and tuples.
use heap_page::Page;
use heap_tuple::{Align, Field, Header, Shape, column};

const SHAPES: [Shape; 2] = [
    Shape {
        length: 4,
        align: Align::I,
    },
    Shape {
        length: -1,
        align: Align::I,
    },
];

// Whether the tuple's columns have the number of its line and the letter `a`.
fn has_values(tuple: &[u8], line: u16) -> bool {
    let (Ok(Field::Bytes(id)), Ok(Field::Bytes(note))) = (
        column(tuple, &SHAPES, 0),
        column(tuple, &SHAPES, 1),
    ) else {
        return false;
    };
    id == u32::from(line).to_le_bytes().as_slice() && note == b"a".as_slice()
}

// Whether a transaction that is committed deleted the row.
fn is_deleted(header: &Header) -> bool {
    header.xmax == 701
}

// Whether the row of a line is one of transaction 700, and has the right values.
fn is_live(tuple: &[u8], line: u16) -> bool {
    match Header::read(tuple) {
        Ok(header) => {
            header.xmin == 700
                && header.line == line
                && !is_deleted(&header)
                && has_values(tuple, line)
        }
        Err(_) => false,
    }
}

/// The number of rows that stand on a page and weren't deleted. What is no page has none.
pub(crate) fn live_rows(block: &[u8]) -> u64 {
    let Ok(page) = Page::over(block) else {
        return 0;
    };
    let mut count = 0u64;
    for (line, tuple) in page.items() {
        if is_live(tuple, line) {
            count = count.saturating_add(1);
        }
    }
    count
}

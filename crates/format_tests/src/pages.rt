// Pages, their items, and the visibility map.
use crate::bytes::{bytes, number, shown};
use heap_page::{Item, LinePointer, Page, map_bits};
use std::alloc::Global;

fn items(alloc: Global, page: &Page<'_>) -> Option<String> {
    let items: Vec<(u16, &[u8])> = page.items().collect(alloc).ok()?;
    shown(alloc, &items)
}

fn item(alloc: Global, page: &Page<'_>, word: &str) -> Option<String> {
    let found: Option<Item<'_>> = page.item(word.parse::<u16>().ok()?);
    shown(alloc, &found)
}

fn of_page(alloc: Global, page: &Page<'_>, call: &str, word: &str) -> Option<String> {
    match call {
        "over" => shown(alloc, &"a page"),
        "count" => shown(alloc, &page.count()),
        "items" => items(alloc, page),
        "item" => item(alloc, page, word),
        _ => None,
    }
}

// A call of a page, or what is wrong with its bytes.
fn over(alloc: Global, block: &[u8], call: &str, word: &str) -> Option<String> {
    match Page::over(block) {
        Ok(page) => of_page(alloc, &page, call, word),
        Err(error) => shown(alloc, &error),
    }
}

// The line pointer of four bytes.
fn pointer(alloc: Global, bits: &[u8]) -> Option<String> {
    match bits {
        [a, b, c, d] => shown(
            alloc,
            &LinePointer::from_bits(u32::from_le_bytes([*a, *b, *c, *d])),
        ),
        _ => None,
    }
}

/// What a call of a block gives.
pub(crate) fn answer(alloc: Global, call: &str, words: &str) -> Option<String> {
    let (word, rest) = words.split_once(' ').unwrap_or((words, ""));
    let block = bytes(alloc, word)?;
    match call {
        "pointer" => pointer(alloc, &block),
        "map" => shown(alloc, &map_bits(&block, number(rest)?)),
        _ => over(alloc, &block, call, rest),
    }
}

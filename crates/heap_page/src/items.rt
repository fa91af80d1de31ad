ghost use Rattle.std.specs.Prelude.{◌≡◌, ◌+◌, ◌*◌, ◌≤◌, length};
ghost use Rattle.std.specs.Iterator.{YieldsFirstBy, item_count};
ghost use Rattle.heap_page.specs.Line.{pointer_item};
ghost use Rattle.heap_page.specs.Page.{line_pointer};
ghost use Rattle.heap_page.specs.Item.{item_value};

use crate::layout::{LINE_POINTER_SIZE, PAGE_HEADER_SIZE};
use crate::line::{LinePointer, LineState};
use crate::numbers::u32_at;
use std::marker::Model;

/// What a line of a page is.
#[derive(Clone, Copy, Debug, PartialEq, Eq)]
pub enum Item<'a> {
    /// The line is free.
    Unused,
    /// The bytes of the line's tuple, a part of the page.
    Tuple(&'a [u8]),
    /// The line leads to this one, the next member of its update chain.
    Redirect(u16),
    /// The line's tuple is gone.
    Dead,
}

// The line pointer of a line; lines count from 1.
pub(crate) fn pointer_at(page: &[u8], line: u16) -> LinePointer
    requires counted { 1 ≤ line }
    requires within { PAGE_HEADER_SIZE + LINE_POINTER_SIZE * line ≤ length page.now }
    ensures { result ≡ line_pointer page.now line }
{
    let index = line as usize - 1;
    LinePointer::from_bits(u32_at(page, PAGE_HEADER_SIZE + LINE_POINTER_SIZE * index))
}

// What the line of this pointer is.
pub(crate) fn item_of(page: &[u8], pointer: LinePointer) -> Item<'_>
    requires { pointer.state ≡ LineState.Normal →
        pointer.offset + pointer.length ≤ length page.now }
    ensures { item_value result ≡ pointer_item page.now pointer }
{
    match pointer.state {
        LineState::Unused => Item::Unused,
        LineState::Normal => {
            let start = pointer.offset as usize;
            Item::Tuple(&page[start..start + pointer.length as usize])
        }
        LineState::Redirect => Item::Redirect(pointer.offset),
        LineState::Dead => Item::Dead,
    }
}

/// The normal lines of a page that are left, seen as the list of pairs of the line's number and its
/// tuple's bytes.
#[derive(Debug, Drop)]
pub struct Items<'a> {
    page: &'a [u8],
    // The next line, and the one behind the last.
    line: u16,
    end: u16,
}

impl<'a> Model for Items<'a> {
    ghost use Rattle.std.specs.Prelude.{ℕ, List};

    ghost Value = { List (ℕ × List ℕ) };

    ghost use Rattle.heap_page.specs.Cursor.{lines_left, IsCursor};

    ghost view = { λ it. lines_left it.page.now it.line it.end };

    ghost invariant = { λ it. IsCursor it.page.now it.line it.end };
}

impl<'a> Items<'a> {
    ghost use Rattle.std.specs.Prelude.{◌≡◌, None};
    ghost use Rattle.heap_page.specs.Page.{page_error, items_of, line_count};

    // All normal lines of a page of so many lines.
    pub(crate) fn over(page: &'a [u8], count: u16) -> Items<'a>
        requires sound { page_error page.now ≡ None }
        requires counted { count ≡ line_count page.now }
        ensures { result ≡ items_of page.now }
    {
        Items {
            page,
            line: 1,
            end: count + 1,
        }
    }
}

impl<'a> Iterator for Items<'a> {
    type Item = (u16, &'a [u8]);

    ghost next_gives = { YieldsFirstBy (λ item. (item.0, item.1.now)) (λ left. left) };

    ghost remaining = { item_count (λ left. left) };

    fn next(&mut self) -> Option<(u16, &'a [u8])> {
        while self.line < self.end {
            let line = self.line;
            let item = item_of(self.page, pointer_at(self.page, line));
            self.line += 1;
            if let Item::Tuple(tuple) = item {
                return Some((line, tuple));
            }
        }
        None
    }
}

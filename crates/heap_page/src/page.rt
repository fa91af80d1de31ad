ghost use Rattle.std.specs.Prelude.{◌≡◌, ◌↔◌, ◌⊎◌, ◌+◌, ◌*◌, ◌<◌, ◌≤◌, length, IsNone, IfOk, MatchResult, None, option_map};
ghost use Rattle.std.specs.Result.{result_err};
ghost use Rattle.heap_page.specs.Page.{IsPage, IsRefusedAs, page_error, is_zero, header_in_bounds, line_in_bounds, lines_in_bounds, line_count, lower, item_at, items_of};
ghost use Rattle.heap_page.specs.Item.{item_value};

use crate::error::PageError;
use crate::items::{Item, Items, item_of, pointer_at};
use crate::layout::{
    LINE_POINTER_SIZE, LOWER_AT, PAGE_HEADER_SIZE, PAGE_SIZE, SIZE_VERSION, SIZE_VERSION_AT,
    SPECIAL_AT, UPPER_AT,
};
use crate::line::LineState;
use crate::numbers::u16_at;
use std::marker::Model;

/// A page of a heap that passed the tests of `Page::over`, seen as its bytes.
#[derive(Debug, Drop)]
pub struct Page<'a> {
    bytes: &'a [u8],
}

impl<'a> Model for Page<'a> {
    ghost use Rattle.std.specs.Prelude.{◌≡◌, ℕ, List, None};
    ghost use Rattle.heap_page.specs.Page.{page_error};

    ghost Value = { List ℕ };

    ghost view = { λ page. page.bytes.now };

    ghost invariant = { λ page. page_error page.bytes.now ≡ None };
}

impl<'a> Page<'a> {
    /// The page in the bytes of a block. A block of zeros is a page without lines.
    pub fn over(bytes: &'a [u8]) -> Result<Page<'a>, PageError>
        ensures rules { MatchResult result (λ _. IsPage bytes.now)
            (λ error. IsRefusedAs bytes.now error) }
        ensures answer { result_err result ≡ page_error bytes.now }
        ensures page { IfOk result (λ page. page ≡ bytes.now) }
    {
        check(bytes)?;
        Ok(Page { bytes })
    }

    /// How many lines the page has, at most 2042.
    pub fn count(&self) -> u16
        ensures count { result ≡ line_count self.now }
        ensures sound { page_error self.now ≡ None }
        ensures within { result ≤ 2042 }
    {
        count_of(self.bytes)
    }

    /// The item of a line; lines count from 1. None where the page has no such line.
    pub fn item(&self, n: u16) -> Option<Item<'a>>
        ensures item { option_map item_value result ≡ item_at self.now n }
        ensures absent { IsNone result ↔ ((n ≡ 0) ⊎ (line_count self.now < n)) }
    {
        if n == 0 || n > self.count() {
            return None;
        }
        Some(item_of(self.bytes, pointer_at(self.bytes, n)))
    }

    /// The normal lines of the page in order, each as its number and the bytes of its tuple.
    pub fn items(&self) -> Items<'a>
        ensures { result ≡ items_of self.now }
    {
        Items::over(self.bytes, count_of(self.bytes))
    }
}

// How many line pointers stand between the header and `pd_lower`.
fn count_of(bytes: &[u8]) -> u16
    requires { length bytes.now ≡ PAGE_SIZE }
    ensures { result ≡ line_count bytes.now }
{
    let line_pointers = (u16_at(bytes, LOWER_AT) as usize).saturating_sub(PAGE_HEADER_SIZE);
    (line_pointers / LINE_POINTER_SIZE) as u16
}

// What makes the bytes no page, if anything does.
fn check(bytes: &[u8]) -> Result<(), PageError>
    ensures { result_err result ≡ page_error bytes.now }
{
    if bytes.len() != PAGE_SIZE {
        return Err(PageError::Size);
    }
    if is_zero(bytes) {
        return Ok(());
    }
    if !header_in_bounds(bytes) || !lines_in_bounds(bytes) {
        return Err(PageError::Bounds);
    }
    if u16_at(bytes, SIZE_VERSION_AT) != SIZE_VERSION {
        return Err(PageError::Version);
    }
    Ok(())
}

// Whether all bytes are zero.
fn is_zero(bytes: &[u8]) -> bool
    ensures { result ≡ is_zero bytes.now }
{
    bytes.iter().all(|byte| *byte == 0)
}

// Whether header, line pointers, free space, tuples and special space follow each other.
fn header_in_bounds(bytes: &[u8]) -> bool
    requires { length bytes.now ≡ PAGE_SIZE }
    ensures { result ≡ header_in_bounds bytes.now }
{
    let lower = u16_at(bytes, LOWER_AT) as usize;
    let upper = u16_at(bytes, UPPER_AT) as usize;
    let special = u16_at(bytes, SPECIAL_AT) as usize;
    PAGE_HEADER_SIZE <= lower && lower <= upper && upper <= special && special <= PAGE_SIZE
}

// Whether the tuple of each normal line lies within the page.
fn lines_in_bounds(bytes: &[u8]) -> bool
    requires size { length bytes.now ≡ PAGE_SIZE }
    requires lines { lower bytes.now ≤ PAGE_SIZE }
    ensures { result ≡ lines_in_bounds bytes.now }
{
    for line in 1..count_of(bytes) + 1 {
        if !line_in_bounds(bytes, line) {
            return false;
        }
    }
    true
}

// Whether the tuple of a line lies within the page, where the line has one.
fn line_in_bounds(bytes: &[u8], line: u16) -> bool
    requires counted { 1 ≤ line }
    requires within { PAGE_HEADER_SIZE + LINE_POINTER_SIZE * line ≤ length bytes.now }
    ensures { result ≡ line_in_bounds bytes.now line }
{
    let pointer = pointer_at(bytes, line);
    match pointer.state {
        LineState::Normal => pointer.offset as usize + pointer.length as usize <= PAGE_SIZE,
        LineState::Unused | LineState::Redirect | LineState::Dead => true,
    }
}

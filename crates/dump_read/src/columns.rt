// The lists that stand in parentheses: columns of a table and keys of an index.

ghost use Rattle.std.specs.Prelude.{◌≡◌, ◌++◌, suc, length};
ghost use Rattle.dump_read.specs.Answer.{Answers};
ghost use Rattle.dump_read.specs.Takes.{column_number_in, one};
ghost use Rattle.dump_read.specs.Form.{missing_at, base_at, enum_at, column_kind_at, live_at, dropped_at, column_at, with_items, more_at, items_at, closed_at, columns_in_at, columns_at, keys_at};

use crate::error::ReadError;
use crate::words::Words;
use catalog::Keys;
use dump_grammar::{ColumnText, ColumnTexts, NamedKind};
use fs_model::{Bytes, Text};
use std::alloc::Global;

#[tactic(auto, unfolding(crate::specs::Form::missing_at))]
fn missing(alloc: Global, words: &mut Words<'_>) -> Result<Option<Bytes>, ReadError>
    ensures { Answers (λ o. (o, words.new)) result (missing_at words.old) }
{
    if words.takes_key(b"MISSING") {
        Ok(Some(words.hex(alloc)?))
    } else {
        Ok(None)
    }
}

#[tactic(auto, unfolding(crate::specs::Form::base_at))]
fn base(words: &mut Words<'_>) -> Result<NamedKind, ReadError>
    ensures { Answers (λ k. (k, words.new)) result (base_at words.old) }
{
    Ok(NamedKind::Base(words.base_type()?))
}

#[tactic(auto, unfolding(crate::specs::Form::enum_at))]
fn enum_kind(alloc: Global, words: &mut Words<'_>) -> Result<NamedKind, ReadError>
    ensures { Answers (λ k. (k, words.new)) result (enum_at words.old) }
{
    let place = words.qualified(alloc)?;
    Ok(NamedKind::Enum(place.schema, place.name))
}

#[tactic(auto, unfolding(crate::specs::Form::column_kind_at))]
fn column_kind(alloc: Global, words: &mut Words<'_>) -> Result<NamedKind, ReadError>
    ensures { Answers (λ k. (k, words.new)) result (column_kind_at words.old) }
{
    if words.takes_key(b"ENUM") {
        enum_kind(alloc, words)
    } else {
        base(words)
    }
}

#[tactic(auto, unfolding(crate::specs::Form::live_at))]
fn live(alloc: Global, words: &mut Words<'_>) -> Result<ColumnText, ReadError>
    ensures { Answers (λ c. (c, words.new)) result (live_at words.old) }
{
    let name = words.name(alloc)?;
    let kind = column_kind(alloc, words)?;
    let missing = missing(alloc, words)?;
    Ok(ColumnText {
        name,
        kind,
        missing,
    })
}

#[tactic(auto, unfolding(crate::specs::Form::dropped_at))]
fn dropped(alloc: Global, words: &mut Words<'_>) -> Result<ColumnText, ReadError>
    ensures { Answers (λ c. (c, words.new)) result (dropped_at words.old) }
{
    let length = words.dropped_length()?;
    let align = words.align()?;
    Ok(ColumnText {
        name: Text::new(Vec::new(alloc)),
        kind: NamedKind::Dropped { length, align },
        missing: None,
    })
}

#[tactic(auto, unfolding(crate::specs::Form::column_at))]
fn column(alloc: Global, words: &mut Words<'_>) -> Result<ColumnText, ReadError>
    ensures { Answers (λ c. (c, words.new)) result (column_at words.old) }
{
    if words.takes_key(b"DROPPED") {
        dropped(alloc, words)
    } else {
        live(alloc, words)
    }
}

// The columns with those that follow, each behind a comma.
fn more_columns(
    alloc: Global,
    words: &mut Words<'_>,
    first: ColumnTexts,
) -> Result<ColumnTexts, ReadError>
    ensures { Answers (λ v. (v, words.new)) result (with_items first (more_at column_at (suc (length words.old)) words.old)) }
{
    let mut columns = first;
    'columns: while words.takes_mark(b',') {
        columns = columns.with(column(alloc, words)?)?;
    }
    Ok(columns)
}

#[tactic(auto, unfolding(crate::specs::Form::items_at))]
fn columns(alloc: Global, words: &mut Words<'_>) -> Result<ColumnTexts, ReadError>
    ensures { Answers (λ v. (v, words.new)) result (items_at column_at words.old) }
{
    let first = ColumnTexts::new(alloc).with(column(alloc, words)?)?;
    more_columns(alloc, words, first)
}

#[tactic(auto, unfolding(crate::specs::Form::closed_at))]
fn closed_columns(alloc: Global, words: &mut Words<'_>) -> Result<ColumnTexts, ReadError>
    ensures { Answers (λ v. (v, words.new)) result (closed_at column_at words.old) }
{
    let columns = columns(alloc, words)?;
    words.mark(b')')?;
    Ok(columns)
}

#[tactic(auto, unfolding(crate::specs::Form::columns_in_at))]
fn columns_inside(alloc: Global, words: &mut Words<'_>) -> Result<ColumnTexts, ReadError>
    ensures { Answers (λ v. (v, words.new)) result (columns_in_at words.old) }
{
    if words.takes_mark(b')') {
        Ok(ColumnTexts::new(alloc))
    } else {
        closed_columns(alloc, words)
    }
}

// The keys that follow, each behind a comma.
fn more_keys(words: &mut Words<'_>, keys: &mut Vec<u16>) -> Result<(), ReadError>
    ensures { Answers (λ _. (keys.new.items, words.new)) result (with_items keys.old.items (more_at (one column_number_in) (suc (length words.old)) words.old)) }
{
    'keys: while words.takes_mark(b',') {
        keys.push(words.column_number()?)?;
    }
    Ok(())
}

#[tactic(auto, unfolding(crate::specs::Form::items_at))]
fn keys(alloc: Global, words: &mut Words<'_>) -> Result<Vec<u16>, ReadError>
    ensures { Answers (λ v. (v.items, words.new)) result (items_at (one column_number_in) words.old) }
{
    let mut keys = Vec::new(alloc);
    keys.push(words.column_number()?)?;
    more_keys(words, &mut keys)?;
    Ok(keys)
}

#[tactic(auto, unfolding(crate::specs::Form::closed_at))]
fn closed_keys(alloc: Global, words: &mut Words<'_>) -> Result<Keys, ReadError>
    ensures { Answers (λ v. (v, words.new)) result (closed_at (one column_number_in) words.old) }
{
    let keys = keys(alloc, words)?;
    words.mark(b')')?;
    Ok(Keys::new(keys))
}

impl<'a> Words<'a> {
    // Columns in parentheses: none or more.
    #[tactic(auto, unfolding(crate::specs::Form::columns_at))]
    pub fn columns(&mut self, alloc: Global) -> Result<ColumnTexts, ReadError>
        ensures { Answers (λ v. (v, self.new)) result (columns_at self.old) }
    {
        self.mark(b'(')?;
        columns_inside(alloc, self)
    }

    // Numbers of columns in parentheses: one or more.
    #[tactic(auto, unfolding(crate::specs::Form::keys_at))]
    pub fn keys(&mut self, alloc: Global) -> Result<Keys, ReadError>
        ensures { Answers (λ v. (v, self.new)) result (keys_at self.old) }
    {
        self.mark(b'(')?;
        closed_keys(alloc, self)
    }
}

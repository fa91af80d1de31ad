ghost use Rattle.std.specs.Prelude.{◌≡◌, ◌+◌, ◌<◌, ◌≤◌, IsTrue, IsOk, Ok, MatchResult, length, slice_index_or};
ghost use Rattle.std.specs.Iterator.{YieldsFirstBy, item_count};
ghost use Rattle.heap_tuple.specs.Field.{answer_value};
ghost use Rattle.heap_tuple.specs.Header.{header_of};
ghost use Rattle.heap_tuple.specs.Column.{data_of, field_at, field_behind, is_null, place_behind, shape_at, value_of};
ghost use Rattle.heap_tuple.specs.Cursor.{IsPlace};

use crate::error::TupleError;
use crate::field::Field;
use crate::header::Header;
use crate::layout::{HASNULL, HEADER_SIZE};
use crate::shape::Shape;
use crate::stored::stored_field;
use std::marker::Model;

/// The field of column n, counted from 0, of a tuple whose table has these columns; dropped columns
/// count. It passes over each column before n: `Columns` reads all columns in one pass. A negative
/// length other than -1, which no column has, is read as -1.
///
/// The error is the header's, or that of the first column up to this one whose field can't be read;
/// a column that the tuple doesn't store is missing, and one that its bitmap names is null, whatever
/// stands before it.
#[tactic(auto, using(crate::proofs::PlaceLemmas::place_steps), unfolding(crate::specs::Column::column_of))]
pub fn column<'a>(tuple: &'a [u8], columns: &[Shape], n: usize) -> Result<Field<'a>, TupleError>
    requires { n < length columns.now }
    ensures { answer_value result ≡ field_at tuple.now columns.now n }
{
    let header = Header::read(tuple)?;
    if n >= header.attributes as usize {
        return Ok(Field::Missing);
    }
    if is_null(tuple, header, n) {
        return Ok(Field::Null);
    }
    let mut place = Ok(0);
    for index in 0..n {
        if !is_null(tuple, header, index) {
            let _ = next_field(tuple, header, columns[index], &mut place);
        }
    }
    next_field(tuple, header, columns[n], &mut place)
}

/// The fields of the columns of a tuple that are left, read in one pass, seen as the list of what
/// `column` answers for each.
#[derive(Debug, Drop)]
pub struct Columns<'a, 'b> {
    tuple: &'a [u8],
    columns: &'b [Shape],
    header: Header,
    // The next column, and where the stored fields before it end.
    next: usize,
    place: Result<usize, TupleError>,
}

impl<'a, 'b> Model for Columns<'a, 'b> {
    ghost use Rattle.std.specs.Prelude.{List, Result};
    ghost use Rattle.heap_tuple.specs.declared.error.TupleError.{TupleError};
    ghost use Rattle.heap_tuple.specs.Field.{FieldValue};

    ghost Value = { List (Result FieldValue TupleError) };

    ghost use Rattle.heap_tuple.specs.Cursor.{fields_from, IsCursor};

    ghost view = { λ it. fields_from it.tuple.now it.columns.now it.next };

    ghost invariant = { λ it. IsCursor it.tuple.now it.columns.now it.header it.next it.place };
}

impl<'a, 'b> Columns<'a, 'b> {
    ghost use Rattle.std.specs.Prelude.{◌≡◌, IfOk, length};
    ghost use Rattle.std.specs.Result.{result_err};
    ghost use Rattle.heap_tuple.specs.Header.{header_of};
    ghost use Rattle.heap_tuple.specs.Cursor.{fields_of};

    /// The fields of all columns of a tuple whose table has these. The error is the header's.
    #[tactic(auto, using(crate::proofs::PlaceLemmas::place_steps))]
    pub fn over(tuple: &'a [u8], columns: &'b [Shape]) -> Result<Columns<'a, 'b>, TupleError>
        ensures header { result_err result ≡ result_err (header_of tuple.now) }
        ensures fields { IfOk result (λ left. left ≡ fields_of tuple.now columns.now) }
        ensures count { IfOk result (λ left. length left ≡ length columns.now) }
    {
        let header = Header::read(tuple)?;
        Ok(Columns {
            tuple,
            columns,
            header,
            next: 0,
            place: Ok(0),
        })
    }
}

impl<'a, 'b> Iterator for Columns<'a, 'b> {
    type Item = Result<Field<'a>, TupleError>;

    ghost next_gives = { YieldsFirstBy answer_value (λ left. left) };

    ghost remaining = { item_count (λ left. left) };

    #[tactic(auto, using(crate::proofs::PlaceLemmas::walk_steps), unfolding(crate::specs::Column::column_of))]
    fn next(&mut self) -> Option<Result<Field<'a>, TupleError>> {
        let n = self.next;
        if n >= self.columns.len() {
            return None;
        }
        self.next += 1;
        if n >= self.header.attributes as usize {
            return Some(Ok(Field::Missing));
        }
        if is_null(self.tuple, self.header, n) {
            return Some(Ok(Field::Null));
        }
        let mut place = self.place;
        let field = next_field(self.tuple, self.header, self.columns[n], &mut place);
        self.place = place;
        Some(field)
    }
}

// Whether the null bitmap says that a stored column is null.
fn is_null(tuple: &[u8], header: Header, n: usize) -> bool
    requires header { header_of tuple.now ≡ Ok header }
    requires stored { n < header.attributes }
    ensures { result ≡ is_null tuple.now n }
{
    header.infomask & HASNULL != 0 && tuple[HEADER_SIZE + n / 8] >> (n % 8) & 1 == 0
}

// The field of a stored column, where the fields before it end at `place`, which moves behind it.
// Once a field can't be read, its error is the place of all later ones.
fn next_field<'a>(
    tuple: &'a [u8],
    header: Header,
    shape: Shape,
    place: &mut Result<usize, TupleError>,
) -> Result<Field<'a>, TupleError>
    requires header { header_of tuple.now ≡ Ok header }
    requires place { IsPlace tuple.now place.old }
    ensures field { answer_value result
        ≡ value_of (field_behind (data_of tuple.now) shape place.old) }
    ensures place { place.new ≡ place_behind (field_behind (data_of tuple.now) shape place.old) }
    ensures within { IsPlace tuple.now place.new }
{
    let start = (*place)?;
    match stored_field(&tuple[header.hoff as usize..], shape, start) {
        Ok(stored) => {
            *place = Ok(stored.end);
            Ok(stored.field)
        }
        Err(error) => {
            *place = Err(error);
            Err(error)
        }
    }
}

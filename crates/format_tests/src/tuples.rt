// Tuples and their columns.
use crate::bytes::{bytes, number, shown};
use heap_tuple::{Align, Columns, Field, Header, Shape, TupleError, column};
use std::alloc::Global;

fn align(word: &str) -> Option<Align> {
    match word {
        "c" => Some(Align::C),
        "s" => Some(Align::S),
        "i" => Some(Align::I),
        "d" => Some(Align::D),
        _ => None,
    }
}

// A length in bytes and an alignment, as `4,i`.
fn shape(word: &str) -> Option<Shape> {
    let (length, kind) = word.split_once(',')?;
    Some(Shape {
        length: length.parse::<i16>().ok()?,
        align: align(kind)?,
    })
}

fn push_shape(shapes: &mut Vec<Shape>, word: &str, count: u32) -> Option<()> {
    let one = shape(word)?;
    for _ in 0..count {
        shapes.push(one).ok()?;
    }
    Some(())
}

// Shapes with `+` between them. One that comes more than once has `*COUNT` behind it.
fn shapes(alloc: Global, word: &str) -> Option<Vec<Shape>> {
    let mut shapes = Vec::new(alloc);
    for part in word.split('+') {
        let (one, count) = part.split_once('*').unwrap_or((part, "1"));
        push_shape(&mut shapes, one, number(count)?)?;
    }
    Some(shapes)
}

fn column_of(alloc: Global, tuple: &[u8], shapes: &[Shape], n: usize) -> Option<String> {
    if n >= shapes.len() {
        return None;
    }
    shown(alloc, &column(tuple, shapes, n))
}

fn columns_of(alloc: Global, tuple: &[u8], shapes: &[Shape]) -> Option<String> {
    let fields: Vec<Result<Field, TupleError>> = Columns::over(tuple, shapes)
        .ok()?
        .collect(alloc)
        .ok()?;
    shown(alloc, &fields)
}

fn count_of(alloc: Global, tuple: &[u8], shapes: &[Shape]) -> Option<String> {
    let fields: Vec<Result<Field, TupleError>> = Columns::over(tuple, shapes)
        .ok()?
        .collect(alloc)
        .ok()?;
    shown(alloc, &fields.len())
}

// The columns of a tuple that has these shapes: all of them, their number, or one.
fn of_shapes(alloc: Global, tuple: &[u8], words: &str) -> Option<String> {
    let (shapes_word, which) = words.split_once(' ').unwrap_or((words, ""));
    let shapes = shapes(alloc, shapes_word)?;
    match which {
        "" => columns_of(alloc, tuple, &shapes),
        "count" => count_of(alloc, tuple, &shapes),
        _ => column_of(alloc, tuple, &shapes, number(which)? as usize),
    }
}

/// What a call of a tuple gives.
pub(crate) fn answer(alloc: Global, call: &str, words: &str) -> Option<String> {
    let (word, rest) = words.split_once(' ').unwrap_or((words, ""));
    let tuple = bytes(alloc, word)?;
    match call {
        "header" => shown(alloc, &Header::read(&tuple)),
        "columns" => of_shapes(alloc, &tuple, rest),
        _ => None,
    }
}

// What the calls of a block answer.
use crate::calls::{called, started};
use catalog::{Catalog, CatalogError};
use fs_words::{call, check};
use std::alloc::{AllocError, Global};
use std::fmt::Debug;

fn shown<T: Debug>(alloc: Global, given: &T) -> Result<String, AllocError> {
    format!(in alloc; "{given:?}")
}

fn shown_option<T: Debug + Drop>(alloc: Global, given: Option<T>) -> Result<String, AllocError> {
    match given {
        Some(given) => shown(alloc, &given),
        None => String::from_str(alloc, "nothing"),
    }
}

// The OID and the connections of the database at a place.
fn database_at(c: &Catalog, place: usize) -> Option<(u32, bool)> {
    let found = c.database_at(place)?;
    Some((found.oid, found.connections))
}

fn connections(c: &Catalog, oid: u32) -> Option<bool> {
    Some(c.database(oid)?.connections)
}

fn role_at(c: &Catalog, place: usize) -> Option<u32> {
    Some(c.role_at(place)?.oid)
}

fn tablespace_at(c: &Catalog, place: usize) -> Option<u32> {
    Some(c.tablespace_at(place)?.oid)
}

// The owner of a schema of database 5.
fn schema_at(c: &Catalog, place: usize) -> Option<u32> {
    Some(c.database(5)?.schema_at(place)?.owner)
}

// Whether the catalog is as at the start.
fn is_started(alloc: Global, c: &Catalog) -> Result<bool, CatalogError> {
    Ok(c.same(&started(alloc)?))
}

fn role_name(alloc: Global, c: &Catalog) -> Result<String, AllocError> {
    String::from_str(
        alloc,
        str::from_utf8(c.bootstrap().bytes()).unwrap_or("no text"),
    )
}

fn seen(alloc: Global, c: &Catalog, what: &str, number: u32) -> Result<String, AllocError> {
    let place = number as usize;
    match what {
        "bootstrap" => role_name(alloc, c),
        "is_started" => shown(alloc, &is_started(alloc, c)),
        "connections" => shown_option(alloc, connections(c, number)),
        "database_at" => shown_option(alloc, database_at(c, place)),
        "role_at" => shown_option(alloc, role_at(c, place)),
        "tablespace_at" => shown_option(alloc, tablespace_at(c, place)),
        "schema_at" => shown_option(alloc, schema_at(c, place)),
        _ => String::from_str(alloc, "no such call"),
    }
}

fn answer(alloc: Global, c: &mut Catalog, call: &str) -> Result<String, AllocError> {
    match call.split_once(' ').unwrap_or((call, "0")) {
        ("add" | "set", words) => shown(alloc, &called(c, alloc, words)),
        (what, word) => seen(alloc, c, what, word.parse::<u32>().unwrap_or(4_294_967_295)),
    }
}

fn wrong_lines(alloc: Global, c: &mut Catalog, block: &str) -> Result<String, AllocError> {
    let mut wrong = String::new(alloc);
    for line in block.lines() {
        if !line.starts_with('#') {
            let given = answer(alloc, c, call(line))?;
            check(&mut wrong, line, given.as_str())?;
        }
    }
    Ok(wrong)
}

/// What is wrong with a block, or nothing.
pub(crate) fn wrong(alloc: Global, block: &str) -> Result<String, AllocError> {
    match started(alloc) {
        Ok(mut c) => wrong_lines(alloc, &mut c, block),
        Err(error) => shown(alloc, &error),
    }
}

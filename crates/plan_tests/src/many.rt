// A catalog of 5,000 tables, whose OIDs fall.
use crate::maps::job;
use dump_text::load;
use relation_map::{FileMap, build};
use std::alloc::{AllocError, Global};

const TABLES: u32 = 5000;

fn push_table(text: &mut String, oid: u32) -> Result<(), AllocError> {
    let alloc = *text.allocator();
    let statement = format!(in alloc;
        "SET NEXT type {oid}; SET NEXT table {oid}; SET NEXT table_file {oid}; CREATE TABLE public.t{oid} OWNER postgres TABLESPACE pg_default (a int4);\n"
    )?;
    text.push_str(&statement)
}

fn text_of(alloc: Global) -> Result<String, AllocError> {
    let mut text = String::from_str(alloc, "BOOTSTRAP postgres; CONNECT postgres;\n")?;
    for i in 0..TABLES {
        push_table(&mut text, 30000 - i)?;
    }
    Ok(text)
}

fn are_in_order(map: &FileMap) -> bool {
    let mut wanted = 30000u32;
    for entry in map.entries() {
        if entry.oid != wanted || entry.file != wanted {
            return false;
        }
        wanted = wanted.saturating_sub(1);
    }
    true
}

/// How many entries the map of the catalog onto itself has, and whether they are in its order.
pub(crate) fn many(alloc: Global) -> Result<String, AllocError> {
    let text = text_of(alloc)?;
    let Ok(catalog) = load(alloc, text.as_bytes()) else {
        return String::from_str(alloc, "no catalog");
    };
    match build(alloc, &catalog, &catalog, &job(alloc)?) {
        Ok(map) => {
            let count = map.entries().len();
            let in_order = are_in_order(&map);
            format!(in alloc; "{count} entries, in order: {in_order}")
        }
        Err(_) => String::from_str(alloc, "no map"),
    }
}

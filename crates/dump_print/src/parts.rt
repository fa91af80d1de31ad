// Parts of the lines.
ghost use Rattle.std.specs.Prelude.{◌≡◌, ◌++◌, OnOk};
ghost use Rattle.std.specs.Fmt.{decimal};
ghost use Rattle.catalog.specs.declared.enums.EnumType.{EnumType};
ghost use Rattle.dump_grammar.specs.Canonical.{role_name, tablespace_name, enum_place, table_place};
ghost use Rattle.dump_print.specs.Parts.{owner_text, owner_end, tablespace_text, place_text, place_of, location_end, flag_end};

use catalog::{Catalog, Database};
use dump_grammar::flag_word;
use dump_lex::{put_name, put_string};
use itoa::Buffer;
use std::alloc::AllocError;

pub(crate) fn put_number(out: &mut Vec<u8>, n: u32) -> Result<(), AllocError>
    ensures { OnOk result (out.new.items ≡ out.old.items ++ decimal n) }
{
    let mut buffer = Buffer::new();
    out.extend_from_slice(buffer.format(n).as_bytes())
}

// ---- names

pub(crate) fn put_owner(out: &mut Vec<u8>, owner: &[u8]) -> Result<(), AllocError>
    ensures { OnOk result (out.new.items ≡ out.old.items ++ owner_text owner.now) }
{
    out.extend_from_slice(b" OWNER ")?;
    put_name(out, owner)
}

pub(crate) fn put_owner_end(out: &mut Vec<u8>, owner: &[u8]) -> Result<(), AllocError>
    ensures { OnOk result (out.new.items ≡ out.old.items ++ owner_end owner.now) }
{
    put_owner(out, owner)?;
    out.extend_from_slice(b";\n")
}

pub(crate) fn put_location_end(out: &mut Vec<u8>, location: &[u8]) -> Result<(), AllocError>
    ensures { OnOk result (out.new.items ≡ out.old.items ++ location_end location.now) }
{
    out.extend_from_slice(b" LOCATION ")?;
    put_string(out, location)?;
    out.extend_from_slice(b";\n")
}

pub(crate) fn put_tablespace(out: &mut Vec<u8>, tablespace: &[u8]) -> Result<(), AllocError>
    ensures { OnOk result (out.new.items ≡ out.old.items ++ tablespace_text tablespace.now) }
{
    out.extend_from_slice(b" TABLESPACE ")?;
    put_name(out, tablespace)?;
    out.extend_from_slice(b" (")
}

pub(crate) fn put_place(out: &mut Vec<u8>, schema: &[u8], name: &[u8]) -> Result<(), AllocError>
    ensures { OnOk result (out.new.items ≡ out.old.items ++ place_text (place_of schema.now name.now)) }
{
    put_name(out, schema)?;
    out.extend_from_slice(b".")?;
    put_name(out, name)
}

pub(crate) fn put_enum_place(
    out: &mut Vec<u8>,
    database: &Database,
    oid: u32,
) -> Result<(), AllocError>
    ensures { OnOk result (out.new.items ≡ out.old.items ++ place_text (enum_place database.now.enums oid)) }
{
    match database.enum_type(oid) {
        None => put_place(out, b"", b""),
        Some(kind) => put_place(out, kind.schema.bytes(), kind.name.bytes()),
    }
}

pub(crate) fn put_table_place(
    out: &mut Vec<u8>,
    database: &Database,
    oid: u32,
) -> Result<(), AllocError>
    ensures { OnOk result (out.new.items ≡ out.old.items ++ place_text (table_place database.now.tables oid)) }
{
    match database.table(oid) {
        None => put_place(out, b"", b""),
        Some(table) => put_place(out, table.schema.bytes(), table.name.bytes()),
    }
}

// The name of the role of an OID; empty where there is none.
pub(crate) fn role_name<'a>(catalog: &'a Catalog, oid: u32) -> &'a [u8]
    ensures { result.now ≡ role_name catalog.now.roles oid }
{
    match catalog.role(oid) {
        None => &[],
        Some(role) => role.name.bytes(),
    }
}

// The name of the tablespace of an OID; empty where there is none.
pub(crate) fn tablespace_name<'a>(catalog: &'a Catalog, oid: u32) -> &'a [u8]
    ensures { result.now ≡ tablespace_name catalog.now.tablespaces oid }
{
    match catalog.tablespace(oid) {
        None => &[],
        Some(tablespace) => tablespace.name.bytes(),
    }
}

pub(crate) fn put_flag_end(out: &mut Vec<u8>, on: bool) -> Result<(), AllocError>
    ensures { OnOk result (out.new.items ≡ out.old.items ++ flag_end on) }
{
    out.extend_from_slice(b" CONNECTIONS ")?;
    out.extend_from_slice(flag_word(on))?;
    out.extend_from_slice(b";\n")
}

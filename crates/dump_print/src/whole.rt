// The whole text, and the lines of a cluster's own objects.
ghost use Rattle.std.specs.Prelude.{◌≡◌, ◌++◌, true, OnOk, IfOk, string_bytes};
ghost use Rattle.std.specs.List.{list_all, flat_map};
ghost use Rattle.std.specs.Str.{is_utf8};
ghost use Rattle.fs_model.specs.PathText.{text_of as path_text};
ghost use Rattle.catalog.specs.Valid.{IsValid};
ghost use Rattle.catalog.specs.Refusals.{is_system_number};
ghost use Rattle.dump_grammar.specs.Canonical.{same_flag, starts_on, flag_statements, role_statements, tablespace_statements, database_statements, is_text_location, more_statements, canonical, IsWritableCatalog};
ghost use Rattle.dump_print.specs.Parts.{lines_text, new_role, new_tablespace, new_database};

use crate::contents::put_contents;
use crate::parts::role_name;
use crate::statements::{
    put_alter_database, put_bootstrap, put_create_database, put_create_role, put_create_tablespace,
    put_next,
};
use catalog::{Catalog, Database, Role, Tablespace};
use dump_grammar::NextKind;
use fs_model::Path;
use std::alloc::AllocError;

// Objects with a lower OID are there from the start, `FirstNormalObjectId` of `access/transam.h`.
const FIRST_USER_OID: u32 = 16384;

fn is_system(oid: u32) -> bool
    ensures { result ≡ is_system_number oid }
{
    oid < FIRST_USER_OID
}

// ---- roles

fn put_new_role(out: &mut Vec<u8>, role: &Role) -> Result<(), AllocError>
    ensures { OnOk result (out.new.items ≡ out.old.items ++ lines_text (new_role role.now)) }
{
    put_next(out, NextKind::Role, role.oid)?;
    put_create_role(out, role.name.bytes())
}

fn put_role(out: &mut Vec<u8>, role: &Role) -> Result<(), AllocError>
    ensures { OnOk result (out.new.items ≡ out.old.items ++ lines_text (role_statements role.now)) }
{
    if is_system(role.oid) {
        Ok(())
    } else {
        put_new_role(out, role)
    }
}

fn put_roles(out: &mut Vec<u8>, catalog: &Catalog) -> Result<(), AllocError>
    ensures { OnOk result (out.new.items ≡ out.old.items ++ lines_text (flat_map role_statements catalog.now.roles)) }
{
    let count = catalog.role_count();
    for i in 0..count {
        match catalog.role_at(i) {
            None => return Ok(()),
            Some(role) => put_role(out, role)?,
        }
    }
    Ok(())
}

// ---- tablespaces

// Does nothing: its clause says that a `str` is text.
fn know_text(text: &str)
    ensures { is_utf8 text.now ≡ true }
{
    let _ = text;
}

// The text of a location, which is text.
fn location_text(path: &Path) -> Result<String, AllocError>
    ensures { IfOk result (λ text. (string_bytes text ≡ path_text path.now) × (is_utf8 (path_text path.now) ≡ true)) }
{
    let text = path.text()?;
    know_text(text.as_str());
    Ok(text)
}

// `location` is the text of its location.
fn put_new_tablespace(
    out: &mut Vec<u8>,
    catalog: &Catalog,
    tablespace: &Tablespace,
    location: &[u8],
) -> Result<(), AllocError>
    requires { location.now ≡ path_text tablespace.now.location }
    ensures { OnOk result (out.new.items ≡ out.old.items ++ lines_text (new_tablespace catalog.now.roles tablespace.now)) }
{
    put_next(out, NextKind::Tablespace, tablespace.oid)?;
    let owner = role_name(catalog, tablespace.owner);
    put_create_tablespace(out, tablespace, owner, location)
}

fn put_tablespace_at(
    out: &mut Vec<u8>,
    catalog: &Catalog,
    tablespace: &Tablespace,
    location: &[u8],
) -> Result<(), AllocError>
    requires { location.now ≡ path_text tablespace.now.location }
    ensures { OnOk result (out.new.items ≡ out.old.items ++ lines_text (tablespace_statements catalog.now.roles tablespace.now)) }
{
    if is_system(tablespace.oid) {
        Ok(())
    } else {
        put_new_tablespace(out, catalog, tablespace, location)
    }
}

fn put_tablespace(
    out: &mut Vec<u8>,
    catalog: &Catalog,
    tablespace: &Tablespace,
) -> Result<(), AllocError>
    ensures text { OnOk result (out.new.items ≡ out.old.items ++ lines_text (tablespace_statements catalog.now.roles tablespace.now)) }
    ensures location { OnOk result (is_text_location tablespace.now ≡ true) }
{
    // Made for a tablespace that isn't written too: the clause `location` is of each.
    let location = location_text(&tablespace.location)?;
    put_tablespace_at(out, catalog, tablespace, location.as_bytes())?;
    Ok(())
}

fn put_tablespaces(out: &mut Vec<u8>, catalog: &Catalog) -> Result<(), AllocError>
    ensures text { OnOk result (out.new.items ≡ out.old.items ++ lines_text (flat_map (tablespace_statements catalog.now.roles) catalog.now.tablespaces)) }
    ensures locations { OnOk result (list_all is_text_location catalog.now.tablespaces ≡ true) }
{
    let count = catalog.tablespace_count();
    for i in 0..count {
        match catalog.tablespace_at(i) {
            None => return Ok(()),
            Some(tablespace) => put_tablespace(out, catalog, tablespace)?,
        }
    }
    Ok(())
}

// ---- databases

fn same_flag(a: bool, b: bool) -> bool
    ensures { result ≡ same_flag a b }
{
    a == b
}

// `template0`, of the OID 4, starts with its connections off.
fn starts_on(database: &Database) -> bool
    ensures { result ≡ starts_on database.now }
{
    database.oid != 4
}

fn put_flag(out: &mut Vec<u8>, starts: bool, database: &Database) -> Result<(), AllocError>
    ensures { OnOk result (out.new.items ≡ out.old.items ++ lines_text (flag_statements starts database.now)) }
{
    if same_flag(database.connections, starts) {
        Ok(())
    } else {
        put_alter_database(out, database.name.bytes(), database.connections)
    }
}

fn put_new_database(
    out: &mut Vec<u8>,
    catalog: &Catalog,
    database: &Database,
) -> Result<(), AllocError>
    ensures { OnOk result (out.new.items ≡ out.old.items ++ lines_text (new_database catalog.now.roles database.now)) }
{
    put_next(out, NextKind::Database, database.oid)?;
    let owner = role_name(catalog, database.owner);
    put_create_database(out, database.name.bytes(), owner)?;
    put_flag(out, true, database)
}

fn put_database(out: &mut Vec<u8>, catalog: &Catalog, database: &Database) -> Result<(), AllocError>
    ensures { OnOk result (out.new.items ≡ out.old.items ++ lines_text (database_statements catalog.now.roles database.now)) }
{
    if is_system(database.oid) {
        put_flag(out, starts_on(database), database)
    } else {
        put_new_database(out, catalog, database)
    }
}

fn put_databases(out: &mut Vec<u8>, catalog: &Catalog) -> Result<(), AllocError>
    ensures { OnOk result (out.new.items ≡ out.old.items ++ lines_text (flat_map (database_statements catalog.now.roles) catalog.now.databases)) }
{
    let count = catalog.database_count();
    for i in 0..count {
        match catalog.database_at(i) {
            None => return Ok(()),
            Some(database) => put_database(out, catalog, database)?,
        }
    }
    Ok(())
}

// ---- all of it

// All lines but the first.
fn put_lines(out: &mut Vec<u8>, catalog: &Catalog) -> Result<(), AllocError>
    ensures text { OnOk result (out.new.items ≡ out.old.items ++ lines_text (more_statements catalog.now)) }
    ensures writable { OnOk result (IsWritableCatalog catalog.now) }
{
    put_roles(out, catalog)?;
    put_tablespaces(out, catalog)?;
    put_databases(out, catalog)?;
    put_contents(out, catalog)?;
    Ok(())
}

/// Writes the canonical text of a catalog at the end of a vector: who made the cluster, then its roles, tablespaces and
/// databases, then what each database holds. pg_dumpall writes the objects of a cluster in this order. `writable` says
/// that each location is text and each missing value is made of bytes, without which the text couldn't be read again.
/// Only want of memory is an error; part of the text may stand there then.
#[tactic(auto, unfolding(crate::specs::Parts::line_text))]
pub fn put_catalog(out: &mut Vec<u8>, catalog: &Catalog) -> Result<(), AllocError>
    ensures text { OnOk result (out.new.items ≡ out.old.items ++ canonical catalog.now) }
    ensures writable { OnOk result (IsWritableCatalog catalog.now) }
    ensures valid { IsValid catalog.now }
{
    let name = catalog.bootstrap();
    put_bootstrap(out, name.bytes())?;
    put_lines(out, catalog)?;
    Ok(())
}

// The lines of the statements, one function for each form but those of tables and of indexes.
ghost use Rattle.std.specs.Prelude.{◌≡◌, ◌++◌, OnOk};
ghost use Rattle.fs_model.specs.PathText.{text_of as path_text};
ghost use Rattle.dump_grammar.specs.declared.statement.Statement.TheVariants.{Bootstrap, SetNext, CreateRole, CreateTablespace, CreateDatabase, AlterDatabase, Connect, CreateSchema, CreateEnum, AddLabel, CreateSequence};
ghost use Rattle.dump_print.specs.Parts.{line_text};

use crate::parts::{
    put_flag_end, put_location_end, put_number, put_owner, put_owner_end, put_place,
};
use catalog::Tablespace;
use dump_grammar::{NextKind, kind_word};
use dump_lex::{put_name, put_string};
use std::alloc::AllocError;

// ---- of any cluster

#[tactic(auto, unfolding(crate::specs::Parts::line_text))]
pub(crate) fn put_bootstrap(out: &mut Vec<u8>, name: &[u8]) -> Result<(), AllocError>
    ensures { OnOk result (out.new.items ≡ out.old.items ++ line_text (Bootstrap name.now)) }
{
    out.extend_from_slice(b"BOOTSTRAP ")?;
    put_name(out, name)?;
    out.extend_from_slice(b";\n")
}

#[tactic(auto, unfolding(crate::specs::Parts::line_text))]
pub(crate) fn put_next(out: &mut Vec<u8>, kind: NextKind, n: u32) -> Result<(), AllocError>
    ensures { OnOk result (out.new.items ≡ out.old.items ++ line_text (SetNext kind n)) }
{
    out.extend_from_slice(b"SET NEXT ")?;
    out.extend_from_slice(kind_word(kind))?;
    out.extend_from_slice(b" ")?;
    put_number(out, n)?;
    out.extend_from_slice(b";\n")
}

#[tactic(auto, unfolding(crate::specs::Parts::line_text))]
pub(crate) fn put_create_role(out: &mut Vec<u8>, name: &[u8]) -> Result<(), AllocError>
    ensures { OnOk result (out.new.items ≡ out.old.items ++ line_text (CreateRole name.now)) }
{
    out.extend_from_slice(b"CREATE ROLE ")?;
    put_name(out, name)?;
    out.extend_from_slice(b";\n")
}

// `location` is the text of its location, which the caller has made.
#[tactic(auto, unfolding(crate::specs::Parts::line_text))]
pub(crate) fn put_create_tablespace(
    out: &mut Vec<u8>,
    tablespace: &Tablespace,
    owner: &[u8],
    location: &[u8],
) -> Result<(), AllocError>
    requires { location.now ≡ path_text tablespace.now.location }
    ensures { OnOk result (out.new.items ≡ out.old.items ++ line_text (CreateTablespace tablespace.now.name owner.now tablespace.now.location)) }
{
    out.extend_from_slice(b"CREATE TABLESPACE ")?;
    put_name(out, tablespace.name.bytes())?;
    put_owner(out, owner)?;
    put_location_end(out, location)
}

#[tactic(auto, unfolding(crate::specs::Parts::line_text))]
pub(crate) fn put_create_database(
    out: &mut Vec<u8>,
    name: &[u8],
    owner: &[u8],
) -> Result<(), AllocError>
    ensures { OnOk result (out.new.items ≡ out.old.items ++ line_text (CreateDatabase name.now owner.now)) }
{
    out.extend_from_slice(b"CREATE DATABASE ")?;
    put_name(out, name)?;
    put_owner_end(out, owner)
}

#[tactic(auto, unfolding(crate::specs::Parts::line_text))]
pub(crate) fn put_alter_database(
    out: &mut Vec<u8>,
    name: &[u8],
    connections: bool,
) -> Result<(), AllocError>
    ensures { OnOk result (out.new.items ≡ out.old.items ++ line_text (AlterDatabase name.now connections)) }
{
    out.extend_from_slice(b"ALTER DATABASE ")?;
    put_name(out, name)?;
    put_flag_end(out, connections)
}

// ---- of a database

#[tactic(auto, unfolding(crate::specs::Parts::line_text))]
pub(crate) fn put_connect(out: &mut Vec<u8>, name: &[u8]) -> Result<(), AllocError>
    ensures { OnOk result (out.new.items ≡ out.old.items ++ line_text (Connect name.now)) }
{
    out.extend_from_slice(b"CONNECT ")?;
    put_name(out, name)?;
    out.extend_from_slice(b";\n")
}

#[tactic(auto, unfolding(crate::specs::Parts::line_text))]
pub(crate) fn put_create_schema(
    out: &mut Vec<u8>,
    name: &[u8],
    owner: &[u8],
) -> Result<(), AllocError>
    ensures { OnOk result (out.new.items ≡ out.old.items ++ line_text (CreateSchema name.now owner.now)) }
{
    out.extend_from_slice(b"CREATE SCHEMA ")?;
    put_name(out, name)?;
    put_owner_end(out, owner)
}

#[tactic(auto, unfolding(crate::specs::Parts::line_text))]
pub(crate) fn put_create_enum(
    out: &mut Vec<u8>,
    schema: &[u8],
    name: &[u8],
    owner: &[u8],
) -> Result<(), AllocError>
    ensures { OnOk result (out.new.items ≡ out.old.items ++ line_text (CreateEnum schema.now name.now owner.now)) }
{
    out.extend_from_slice(b"CREATE ENUM ")?;
    put_place(out, schema, name)?;
    put_owner_end(out, owner)
}

#[tactic(auto, unfolding(crate::specs::Parts::line_text))]
pub(crate) fn put_add_label(
    out: &mut Vec<u8>,
    schema: &[u8],
    name: &[u8],
    text: &[u8],
) -> Result<(), AllocError>
    ensures { OnOk result (out.new.items ≡ out.old.items ++ line_text (AddLabel schema.now name.now text.now)) }
{
    out.extend_from_slice(b"ADD LABEL ")?;
    put_place(out, schema, name)?;
    out.extend_from_slice(b" ")?;
    put_string(out, text)?;
    out.extend_from_slice(b";\n")
}

#[tactic(auto, unfolding(crate::specs::Parts::line_text))]
pub(crate) fn put_create_sequence(
    out: &mut Vec<u8>,
    schema: &[u8],
    name: &[u8],
    owner: &[u8],
) -> Result<(), AllocError>
    ensures { OnOk result (out.new.items ≡ out.old.items ++ line_text (CreateSequence schema.now name.now owner.now)) }
{
    out.extend_from_slice(b"CREATE SEQUENCE ")?;
    put_place(out, schema, name)?;
    put_owner_end(out, owner)
}

//! The words that name a value: the one table of them, which reading and writing share.
ghost use Rattle.std.specs.Prelude.{◌≡◌};
ghost use Rattle.dump_grammar.specs.Pieces.{kind_word, type_word, align_word, flag_word};

use crate::statement::NextKind;
use catalog::BaseType;
use heap_tuple::Align;

/// The word of a kind behind `SET NEXT`, a plain word.
pub fn kind_word(kind: NextKind) -> &'static [u8]
    ensures { result.now ≡ kind_word kind }
{
    match kind {
        NextKind::Role => b"role",
        NextKind::Tablespace => b"tablespace",
        NextKind::Database => b"database",
        NextKind::TypeOid => b"type",
        NextKind::Label => b"label",
        NextKind::Table => b"table",
        NextKind::TableFile => b"table_file",
        NextKind::Toast => b"toast",
        NextKind::ToastFile => b"toast_file",
        NextKind::ToastIndex => b"toast_index",
        NextKind::ToastIndexFile => b"toast_index_file",
        NextKind::Index => b"index",
        NextKind::IndexFile => b"index_file",
        NextKind::Sequence => b"sequence",
        NextKind::SequenceFile => b"sequence_file",
    }
}

/// The name of a built-in type, `typname` of `pg_type`, a plain word.
pub fn type_word(base: BaseType) -> &'static [u8]
    ensures { result.now ≡ type_word base }
{
    match base {
        BaseType::Bool => b"bool",
        BaseType::Int2 => b"int2",
        BaseType::Int4 => b"int4",
        BaseType::Oid => b"oid",
        BaseType::Float4 => b"float4",
        BaseType::Date => b"date",
        BaseType::RegCollation => b"regcollation",
        BaseType::RegConfig => b"regconfig",
        BaseType::RegDictionary => b"regdictionary",
        BaseType::RegNamespace => b"regnamespace",
        BaseType::RegOper => b"regoper",
        BaseType::RegOperator => b"regoperator",
        BaseType::RegProc => b"regproc",
        BaseType::RegProcedure => b"regprocedure",
        BaseType::Int8 => b"int8",
        BaseType::Float8 => b"float8",
        BaseType::Timestamp => b"timestamp",
        BaseType::TimestampTz => b"timestamptz",
        BaseType::Uuid => b"uuid",
        BaseType::Name => b"name",
        BaseType::AclItem => b"aclitem",
        BaseType::Text => b"text",
        BaseType::VarChar => b"varchar",
        BaseType::Bytea => b"bytea",
        BaseType::Numeric => b"numeric",
        BaseType::Jsonb => b"jsonb",
    }
}

/// The letter of an alignment, `attalign` of `pg_attribute`, a plain word.
pub fn align_word(align: Align) -> &'static [u8]
    ensures { result.now ≡ align_word align }
{
    match align {
        Align::C => b"c",
        Align::S => b"s",
        Align::I => b"i",
        Align::D => b"d",
    }
}

/// `ON` or `OFF`, a keyword.
pub fn flag_word(on: bool) -> &'static [u8]
    ensures { result.now ≡ flag_word on }
{
    if on { b"ON" } else { b"OFF" }
}

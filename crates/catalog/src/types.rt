ghost use Rattle.std.specs.Prelude.{◌≡◌};
ghost use Rattle.catalog.specs.Shapes.{base_shape, kind_shape};

use heap_tuple::{Align, Shape};

/// A built-in type that a column may have. What `pg_type` says of its fields is its `shape`.
#[derive(Clone, Copy, Debug, PartialEq, Eq)]
pub enum BaseType {
    Bool,
    Int2,
    Int4,
    Oid,
    Float4,
    Date,
    RegCollation,
    RegConfig,
    RegDictionary,
    RegNamespace,
    RegOper,
    RegOperator,
    RegProc,
    RegProcedure,
    Int8,
    Float8,
    Timestamp,
    TimestampTz,
    Uuid,
    Name,
    AclItem,
    Text,
    VarChar,
    Bytea,
    Numeric,
    Jsonb,
}

impl BaseType {
    /// The length and the alignment of its fields, `typlen` and `typalign` of `pg_type`. An
    /// `AclItem` is that of release 15.
    pub fn shape(self) -> Shape
        ensures { result ≡ base_shape self }
    {
        match self {
            BaseType::Bool => shape_of(1, Align::C),
            BaseType::Int2 => shape_of(2, Align::S),
            BaseType::Int4
            | BaseType::Oid
            | BaseType::Float4
            | BaseType::Date
            | BaseType::RegCollation
            | BaseType::RegConfig
            | BaseType::RegDictionary
            | BaseType::RegNamespace
            | BaseType::RegOper
            | BaseType::RegOperator
            | BaseType::RegProc
            | BaseType::RegProcedure => shape_of(4, Align::I),
            BaseType::Int8 | BaseType::Float8 | BaseType::Timestamp | BaseType::TimestampTz => {
                shape_of(8, Align::D)
            }
            BaseType::Uuid => shape_of(16, Align::C),
            BaseType::Name => shape_of(64, Align::C),
            BaseType::AclItem => shape_of(12, Align::I),
            BaseType::Text
            | BaseType::VarChar
            | BaseType::Bytea
            | BaseType::Numeric
            | BaseType::Jsonb => shape_of(-1, Align::I),
        }
    }
}

fn shape_of(length: i16, align: Align) -> Shape
    ensures { result ≡ record { length = length; align = align } }
{
    Shape { length, align }
}

/// What a column holds.
#[derive(Clone, Copy, Debug, PartialEq, Eq)]
pub enum ColumnKind {
    /// Values of a built-in type.
    Base(BaseType),
    /// Values of the enum with this OID, of the same database.
    Enum(u32),
    /// Nothing any more: of a column that was dropped the tuples keep the fields, and the catalog
    /// their length and alignment (`attlen` and `attalign` of `pg_attribute`).
    Dropped { length: i16, align: Align },
}

impl ColumnKind {
    /// The length and the alignment of its fields. An enum's are OIDs of its labels.
    pub fn shape(self) -> Shape
        ensures { result ≡ kind_shape self }
    {
        match self {
            ColumnKind::Base(base) => base.shape(),
            ColumnKind::Enum(_) => shape_of(4, Align::I),
            ColumnKind::Dropped { length, align } => shape_of(length, align),
        }
    }
}

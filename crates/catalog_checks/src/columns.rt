// The columns whose types can't be carried over.
ghost use Rattle.std.specs.Prelude.{◌≡◌, ◌≤◌, true, length};
ghost use Rattle.std.specs.List.{list_all};
ghost use Rattle.catalog_checks.specs.Columns.{is_reg_type, is_acl_type, passes, table_columns, database_columns, columns_of, first_place, has_few_columns, have_few_columns, first_reg_column, first_acl_column};

use catalog::{BaseType, Catalog, ColumnKind, Database, Table};

/// Where a column stands.
#[derive(Clone, Copy, Debug, PartialEq, Eq)]
pub struct ColumnPlace {
    /// The OID of its database.
    pub database: u32,
    /// The OID of its table.
    pub table: u32,
    /// Its number, `attnum` of `pg_attribute`: columns count from 1, dropped ones too.
    pub column: u16,
}

// A group of types of which no column may be.
#[derive(Clone, Copy, Debug, PartialEq, Eq)]
pub(crate) enum TypeTest {
    // Types whose values are OIDs of catalogs that a new cluster numbers anew.
    Reg,
    // `aclitem`, whose values take other bytes in release 16.
    Acl,
}

fn is_reg_type(base: BaseType) -> bool
    ensures { result ≡ is_reg_type base }
{
    match base {
        BaseType::RegCollation
        | BaseType::RegConfig
        | BaseType::RegDictionary
        | BaseType::RegNamespace
        | BaseType::RegOper
        | BaseType::RegOperator
        | BaseType::RegProc
        | BaseType::RegProcedure => true,
        BaseType::Bool
        | BaseType::Int2
        | BaseType::Int4
        | BaseType::Oid
        | BaseType::Float4
        | BaseType::Date
        | BaseType::Int8
        | BaseType::Float8
        | BaseType::Timestamp
        | BaseType::TimestampTz
        | BaseType::Uuid
        | BaseType::Name
        | BaseType::AclItem
        | BaseType::Text
        | BaseType::VarChar
        | BaseType::Bytea
        | BaseType::Numeric
        | BaseType::Jsonb => false,
    }
}

fn is_acl_type(base: BaseType) -> bool
    ensures { result ≡ is_acl_type base }
{
    match base {
        BaseType::AclItem => true,
        BaseType::RegCollation
        | BaseType::RegConfig
        | BaseType::RegDictionary
        | BaseType::RegNamespace
        | BaseType::RegOper
        | BaseType::RegOperator
        | BaseType::RegProc
        | BaseType::RegProcedure
        | BaseType::Bool
        | BaseType::Int2
        | BaseType::Int4
        | BaseType::Oid
        | BaseType::Float4
        | BaseType::Date
        | BaseType::Int8
        | BaseType::Float8
        | BaseType::Timestamp
        | BaseType::TimestampTz
        | BaseType::Uuid
        | BaseType::Name
        | BaseType::Text
        | BaseType::VarChar
        | BaseType::Bytea
        | BaseType::Numeric
        | BaseType::Jsonb => false,
    }
}

impl TypeTest {
    // Whether a column of this kind has a type of the group.
    fn passes(self, kind: ColumnKind) -> bool
        ensures { result ≡ passes self kind }
    {
        match (self, kind) {
            (TypeTest::Reg, ColumnKind::Base(base)) => is_reg_type(base),
            (TypeTest::Acl, ColumnKind::Base(base)) => is_acl_type(base),
            (TypeTest::Reg, ColumnKind::Enum(_)) => false,
            (TypeTest::Acl, ColumnKind::Enum(_)) => false,
            (TypeTest::Reg, ColumnKind::Dropped { .. }) => false,
            (TypeTest::Acl, ColumnKind::Dropped { .. }) => false,
        }
    }
}

// The first column of a table.
fn first_in_table(test: TypeTest, database: u32, table: &Table) -> Option<ColumnPlace>
    requires { has_few_columns table.now ≡ true }
    ensures { result ≡ first_place test (table_columns database table.now) }
{
    let mut number: u16 = 0;
    for column in table.columns.items() {
        number += 1;
        if test.passes(column.kind) {
            return Some(ColumnPlace {
                database,
                table: table.oid,
                column: number,
            });
        }
    }
    None
}

// The first column of a database.
fn first_in_database(test: TypeTest, database: &Database) -> Option<ColumnPlace>
    requires { have_few_columns database.now ≡ true }
    ensures { result ≡ first_place test (database_columns database.now) }
{
    let count = database.table_count();
    for i in 0..count {
        match database.table_at(i) {
            None => return None,
            Some(table) => {
                if let Some(place) = first_in_table(test, database.oid, table) {
                    return Some(place);
                }
            }
        }
    }
    None
}

// The first column of a cluster.
fn first_in_cluster(test: TypeTest, catalog: &Catalog) -> Option<ColumnPlace>
    requires { list_all have_few_columns catalog.now.databases ≡ true }
    ensures { result ≡ first_place test (columns_of catalog.now) }
{
    let count = catalog.database_count();
    for i in 0..count {
        match catalog.database_at(i) {
            None => return None,
            Some(database) => {
                if let Some(place) = first_in_database(test, database) {
                    return Some(place);
                }
            }
        }
    }
    None
}

/// The first column, in the catalog's order, of a type whose values are OIDs that a new cluster gives anew: `regcollation`,
/// `regconfig`, `regdictionary`, `regnamespace`, `regoper`, `regoperator`, `regproc` and `regprocedure`
/// (`check_for_reg_data_type_usage` of `pg_upgrade/check.c`).
pub fn first_reg_column(catalog: &Catalog) -> Option<ColumnPlace>
    ensures { result ≡ first_reg_column catalog.now }
{
    let _valid = catalog.bootstrap();
    first_in_cluster(TypeTest::Reg, catalog)
}

/// The first column, in the catalog's order, of type `aclitem`, whose values have other bytes in release 16
/// (`check_for_aclitem_data_type_usage` of `pg_upgrade/check.c`).
pub fn first_acl_column(catalog: &Catalog) -> Option<ColumnPlace>
    ensures { result ≡ first_acl_column catalog.now }
{
    let _valid = catalog.bootstrap();
    first_in_cluster(TypeTest::Acl, catalog)
}

use crate::column_texts::ColumnTexts;
use catalog::Keys;
use fs_model::{Path, Text};

/// What has OIDs or file numbers of its own: the word behind `SET NEXT`. pg_dump's binary-upgrade output has a function
/// `binary_upgrade_set_next_..` for each.
#[derive(Clone, Copy, Debug, PartialEq, Eq)]
pub enum NextKind {
    Role,
    Tablespace,
    Database,
    /// An enum or the row type of a table; the word is `type`.
    TypeOid,
    Label,
    Table,
    TableFile,
    Toast,
    ToastFile,
    ToastIndex,
    ToastIndexFile,
    Index,
    IndexFile,
    Sequence,
    SequenceFile,
}

/// A statement of a catalog text. What it speaks of is named, and not numbered; the numbers that it takes were set by
/// `SET NEXT` before.
#[derive(Drop)]
pub enum Statement {
    /// Names the role that made the cluster.
    Bootstrap(Text),
    SetNext(NextKind, u32),
    CreateRole(Text),
    CreateTablespace {
        name: Text,
        owner: Text,
        location: Path,
    },
    CreateDatabase {
        name: Text,
        owner: Text,
    },
    AlterDatabase {
        name: Text,
        connections: bool,
    },
    /// Names the database of the statements behind it.
    Connect(Text),
    CreateSchema {
        name: Text,
        owner: Text,
    },
    CreateEnum {
        schema: Text,
        name: Text,
        owner: Text,
    },
    /// Adds a label behind those of the enum of a schema and a name.
    AddLabel {
        schema: Text,
        name: Text,
        text: Text,
    },
    CreateTable {
        schema: Text,
        name: Text,
        owner: Text,
        tablespace: Text,
        columns: ColumnTexts,
    },
    /// An index over the columns `keys`, counted from 1, of the table `table` of `schema`.
    CreateIndex {
        name: Text,
        schema: Text,
        table: Text,
        tablespace: Text,
        keys: Keys,
    },
    CreateSequence {
        schema: Text,
        name: Text,
        owner: Text,
    },
}

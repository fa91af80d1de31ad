use fs_model::{Path, Text};

/// A role, of `pg_authid`.
#[derive(Drop)]
pub struct Role {
    pub oid: u32,
    pub name: Text,
}

/// A tablespace, of `pg_tablespace`.
#[derive(Drop)]
pub struct Tablespace {
    pub oid: u32,
    pub name: Text,
    /// The OID of a role.
    pub owner: u32,
    /// The directory that it stands in. That of `pg_default`, which stands in the cluster's own, is the
    /// path without names.
    pub location: Path,
}

/// A schema of a database, of `pg_namespace`. It is known by its name.
#[derive(Drop)]
pub struct Schema {
    pub name: Text,
    /// The OID of a role.
    pub owner: u32,
}

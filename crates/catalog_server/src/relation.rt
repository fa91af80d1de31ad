/// A relation that has a main file, by `oid`, `reltablespace` and `relfilenode` of `pg_class`.
#[derive(Clone, Copy, Debug, PartialEq, Eq)]
pub struct Relation {
    pub oid: u32,
    pub tablespace: u32,
    pub file: u32,
}

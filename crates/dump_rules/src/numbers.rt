/// The numbers that `SET NEXT` has set and no statement has taken yet, one for each kind.
#[derive(Clone, Copy, Debug, PartialEq, Eq)]
pub struct Numbers {
    pub role: Option<u32>,
    pub tablespace: Option<u32>,
    pub database: Option<u32>,
    pub type_oid: Option<u32>,
    pub label: Option<u32>,
    pub table: Option<u32>,
    pub table_file: Option<u32>,
    pub toast: Option<u32>,
    pub toast_file: Option<u32>,
    pub toast_index: Option<u32>,
    pub toast_index_file: Option<u32>,
    pub index: Option<u32>,
    pub index_file: Option<u32>,
    pub sequence: Option<u32>,
    pub sequence_file: Option<u32>,
}

/// What statements leave behind them besides the catalog.
#[derive(Clone, Copy, Debug, PartialEq, Eq)]
pub struct Session {
    pub numbers: Numbers,
    /// The OID of the database that `CONNECT` named.
    pub connected: Option<u32>,
}

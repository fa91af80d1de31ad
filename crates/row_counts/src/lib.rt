//! How many rows a snapshot sees in all tables of a cluster: `count_rows` reads each table of a catalog by `rows_of` of
//! `cluster_read`, and gives the sum, exactly as the definitions say over the state at its entry. No state is changed.
#![tactic(auto)]

mod counting;

pub use counting::count_rows;

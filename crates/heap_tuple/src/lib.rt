//! Heap tuples of PostgreSQL, as the files of a table hold them: the header, and the fields of the
//! columns. What is read are parts of the bytes handed in; nothing is copied.
#![tactic(auto)]

mod columns;
mod error;
mod field;
mod header;
mod laws;
mod layout;
mod numbers;
mod shape;
mod stored;

pub use crate::columns::{Columns, column};
pub use crate::error::TupleError;
pub use crate::field::{Field, ToastPointer};
pub use crate::header::Header;
pub use crate::laws::{alignment_law, columns_law, fields_law, layout_law, written_law};
pub use crate::layout::{
    ATTRIBUTES_MASK, CID_AT, COMPRESSED_HEADER_SIZE, CTID_BLOCK_AT, CTID_LINE_AT, EXCL_LOCK,
    EXTERNAL_METHOD_SHIFT, EXTERNAL_SIZE_MASK, HASEXTERNAL, HASNULL, HASVARWIDTH, HEADER_SIZE,
    HOFF_AT, INFOMASK_AT, INFOMASK2_AT, KEYSHR_LOCK, LOCK_ONLY, LONG_HEADER_SIZE, POINTER_HEADER,
    POINTER_SIZE, POINTER_TAG, XMAX_AT, XMAX_COMMITTED, XMAX_INVALID, XMAX_IS_MULTI, XMIN_AT,
    XMIN_COMMITTED, XMIN_INVALID,
};
pub use crate::shape::{Align, Shape};

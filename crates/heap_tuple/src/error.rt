use thiserror::Error;

/// Why a tuple, or one of its fields, can't be read.
#[derive(Clone, Copy, Debug, PartialEq, Eq, Error)]
pub enum TupleError {
    /// The header or the field passes the tuple's end.
    #[error("the tuple is too short")]
    Short,
    /// The data's place in the header lies within the header or past the tuple's end.
    #[error("the tuple's data offset is wrong")]
    BadOffset,
    /// A varlena header says a length that no value of its kind has.
    #[error("a field's length is wrong")]
    BadLength,
}

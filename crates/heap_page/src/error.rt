use thiserror::Error;

/// What is wrong with the bytes of a block. The first of these that holds is answered.
#[derive(Clone, Copy, Debug, PartialEq, Eq, Error)]
pub enum PageError {
    /// The block doesn't have 8192 bytes.
    #[error("the block does not have the size of a page")]
    Size,
    /// The header's bounds are out of order, or the tuple of a normal line passes the page's end.
    #[error("the page's bounds do not hold")]
    Bounds,
    /// The page's size and layout version aren't 8192 and 4.
    #[error("the page is of another size or layout version")]
    Version,
}

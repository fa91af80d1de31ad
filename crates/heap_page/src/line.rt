ghost use Rattle.std.specs.Prelude.{◌≡◌};
ghost use Rattle.heap_page.specs.Line.{pointer_of, state_of};

/// The state of a line, `lp_flags` in `src/include/storage/itemid.h`.
#[derive(Clone, Copy, Debug, PartialEq, Eq)]
pub enum LineState {
    /// `LP_UNUSED`, 0: free for a new tuple.
    Unused,
    /// `LP_NORMAL`, 1: the line has a tuple.
    Normal,
    /// `LP_REDIRECT`, 2: the line leads to another one, the next member of its update chain.
    Redirect,
    /// `LP_DEAD`, 3: the line's tuple is gone.
    Dead,
}

/// A line pointer, `ItemIdData` in `src/include/storage/itemid.h`.
#[derive(Clone, Copy, Debug, PartialEq, Eq)]
pub struct LinePointer {
    /// Place of the tuple in the page, in bytes; at a redirect the number of the line that it leads
    /// to.
    pub offset: u16,
    /// What the line is.
    pub state: LineState,
    /// Length of the tuple in bytes.
    pub length: u16,
}

impl LinePointer {
    /// The line pointer of these 32 bits: from the lowest on, 15 of offset, 2 of flags and 15 of
    /// length.
    pub fn from_bits(bits: u32) -> LinePointer
        ensures { result ≡ pointer_of bits }
    {
        LinePointer {
            offset: (bits & 0x7FFF) as u16,
            state: state(bits >> 15 & 3),
            length: (bits >> 17) as u16,
        }
    }
}

// The state that the two flag bits name.
fn state(flags: u32) -> LineState
    ensures { result ≡ state_of flags }
{
    match flags {
        0 => LineState::Unused,
        1 => LineState::Normal,
        2 => LineState::Redirect,
        _ => LineState::Dead,
    }
}

//! What a terminal is to show.
ghost use Rattle.std.specs.Prelude.{◌≡◌};

use crate::lists::{Bytes, Rows};
use crate::place::{Coord, Size};

/// A screen buffer, by the least number that no live buffer has.
#[derive(Clone, Copy, Debug, PartialEq, Eq, Drop)]
pub struct BufferId(pub u32);

/// The window of a screen, as a terminal is to show it.
pub struct View {
    /// The window's size, in cells.
    pub size: Size,
    /// Its cells, row by row.
    pub rows: Rows,
    /// The cursor, from the window's upper left cell (0, 0); (0, 0) where it does not show.
    pub cursor: Coord,
    /// Whether the cursor shows, and stands in the window.
    pub visible: bool,
}

// By hand, so that what drops one has this call in its proof, and not all that lies in one.
impl Drop for View {
    fn drop(self) {
        let View {
            size: _,
            rows: _,
            cursor: _,
            visible: _,
        } = self;
    }
}

impl View {
    /// The cells alone, row by row.
    pub fn into_rows(self) -> Rows
        ensures { result ≡ self.rows }
    {
        let View {
            size: _,
            rows,
            cursor: _,
            visible: _,
        } = self;
        rows
    }
}

/// What a terminal's size or picture becomes.
#[derive(Drop)]
pub enum Sight {
    /// The terminal has this size from here on.
    Resize(Size),
    /// The terminal is to show this.
    Paint(View),
}

/// A frame of the link, by which a terminal sends its input.
#[derive(Drop)]
pub enum Frame {
    /// Bytes that were typed: 1 to 4,096 of them.
    Bytes(Bytes),
    /// Nothing more was typed for a while.
    Quiet,
    /// The terminal has this size from here on.
    Resize(Size),
    /// The terminal asks for a frame of output.
    Ask,
    /// The terminal goes away.
    Hangup,
    /// The link is at its end, between two frames.
    End,
}

/// Why bytes of the link are no frame.
#[derive(Clone, Copy, PartialEq, Eq, Drop)]
pub enum FrameFault {
    /// The first byte begins no frame.
    Tag,
    /// A length of 0, or above 4,096.
    Length,
    /// A size outside 1 to 512 by 1 to 256.
    Size,
    /// The link ends inside the frame.
    Cut,
}

//! Where a line that is edited begins on the screen.

/// The cell of a line's first unit: a column and a row of the buffer. The row is negative where the line's beginning was
/// scrolled out at the top.
#[derive(Clone, Copy)]
pub struct Origin {
    /// The column, from 0.
    pub x: u16,
    /// The row, from 0.
    pub y: i32,
}

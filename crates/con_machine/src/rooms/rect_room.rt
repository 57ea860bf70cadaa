//! The memory of a write over a rectangle.

use con_units::Cell;

/// The cells to be written, row by row, and memory for the four sides that are answered.
#[derive(Drop)]
pub struct RectRoom {
    pub(crate) cells: Vec<Cell>,
    pub(crate) sides: Vec<i64>,
}

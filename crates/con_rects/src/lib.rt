//! Rectangles and runs of a grid, read, written, filled and scrolled.
//!
//! A [`Rect`](con_units::Rect) has its last column and row, in whole numbers, and need not lie in the grid: a call
//! works on the part that the grid has, which [`used`] tells. A run goes row by row from a start to the grid's end.
//!
//! Contracts say for each cell what it is afterwards, in terms of the grid before: `specs/Rules.antt` for a rectangle,
//! `specs/Runs.antt` for a run, `specs/Scroll.antt` for a scroll (the Console API's `WriteConsoleOutput`,
//! `FillConsoleOutputCharacter`, `ScrollConsoleScreenBuffer` and their kin).
//!
//! - [`read_rect`], [`write_rect`], [`read_run`], [`write_run_units`], [`write_run_attrs`] answer `Limit` exactly where
//!   more than 16,384 cells are meant after clipping, and then change nothing.
//! - [`used_count`] and [`run_count`] tell how many cells a call works on, so that a caller can make room for a read.
//! - [`fill_units`], [`fill_attrs`] and [`scroll_rect`] have no limit.
//!
//! A start outside the grid is no fault: nothing is done there. No call takes memory, and none looks at a row that it
//! neither reads nor writes.
#![tactic(auto)]

mod area;
mod counts;
mod reads;
mod runs;
mod scroll;
mod writes;

pub use area::used;
pub use counts::{run_count, used_count};
pub use reads::{read_rect, read_run};
pub use runs::{fill_attrs, fill_units, write_run_attrs, write_run_units};
pub use scroll::scroll_rect;
pub use writes::write_rect;

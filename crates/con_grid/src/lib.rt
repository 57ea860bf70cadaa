//! A grid of cells, row by row, with a stamp for each row.
//!
//! Contracts see a [`Grid`] as a `Picture` (`specs/Picture.antt`): its width and height, its cells in one list, row by
//! row, its number, and, in proofs alone, the cells as they were when the number was last raised. Places count from 0,
//! x (the column) then y (the row); the cell in column x of row y stands at y * width + x of the list.
//!
//! - [`Grid::new`] and [`Grid::resized`] make a grid, 1 to 512 wide and 1 to 2,048 high; only they take memory.
//! - [`Grid::size`], [`Grid::cell`], [`Grid::at`], [`Grid::count`], [`Grid::place`] tell what it is.
//! - [`Grid::set`], [`Grid::fill_run`], [`Grid::scroll_up`], [`Grid::shift_rows`] change it by columns and rows;
//!   [`Grid::put`], [`Grid::put_units`], [`Grid::put_plain`], [`Grid::fill`], [`Grid::lift`], [`Grid::lower`] by places
//!   in the list.
//! - [`Grid::now`] is its number, which [`Grid::set_now`] raises, and [`Grid::stamp`] a row's stamp: a row whose stamp is
//!   less than the number is what it was when the number was last raised. A grid that was made by `new` or `resized` has
//!   each row stamped with its number.
//! - [`is_untouched_in_parts`]: the same of a part of a row, as a window shows it.
//! - [`Stamps`] keeps them: a row that changes gets the number, and every other row keeps its stamp or gets the number.
//!   Which of these get it is not told.
#![tactic(auto)]

mod grid;
mod parts;
mod ring;
mod stamps;

pub use grid::{Grid, is_untouched_in_parts};
pub use stamps::Stamps;

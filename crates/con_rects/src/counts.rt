//! How many cells a rectangle or a run has.
ghost use Rattle.std.specs.Prelude.{◌≡◌};
ghost use Rattle.con_rects.specs.Area.{used_size};
ghost use Rattle.con_rects.specs.Runs.{run_count as count_of_run};

use crate::area::area_of;
use crate::runs::room_from;
use con_grid::Grid;
use con_units::{Coord, Rect};

/// How many cells of a rectangle the grid has, at most 1,048,576.
pub fn used_count(grid: &Grid, rect: Rect) -> usize
    ensures { result ≡ used_size rect grid.now.width grid.now.height }
{
    let size = grid.size();
    area_of(&rect, size.w as usize, size.h as usize).count()
}

/// How many of n cells row by row from a start on the grid has: none from a start outside it.
pub fn run_count(grid: &Grid, from: Coord, n: u32) -> usize
    ensures { result ≡ count_of_run grid.now from n }
{
    (n as usize).min(room_from(grid, from))
}

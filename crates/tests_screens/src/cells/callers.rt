//! Callers of cells and grids.
ghost use Rattle.std.specs.Prelude.{◌≡◌, ◌<◌, ◌≤◌, ◌+◌, [], true, false, Some};
ghost use Rattle.con_units.specs.Attr.{plain};
ghost use Rattle.con_units.specs.Glyph.{plain_cell};
ghost use Rattle.con_units.specs.Shade.{near, IsNearest};
ghost use Rattle.con_units.specs.Words.Shade.{shade_of};
ghost use Rattle.con_grid.specs.Words.Picture.{IsUntouched, IsInside};
ghost use Rattle.con_grid.specs.Parts.{IsPartUntouched};
ghost use Rattle.con_rects.specs.Rules.{rect_cells};
ghost use Rattle.con_rects.specs.Runs.{run_cells};

use con_grid::{Grid, is_untouched_in_parts};
use con_rects::{read_rect, read_run, run_count, used_count};
use con_units::{Attr, Cell, Coord, Rect};

/// Whether a row may have changed since the number was last raised.
pub fn is_marked(grid: &Grid, y: u16) -> bool
    requires { y < grid.now.height }
    ensures { result ≡ false → IsUntouched grid.now y }
{
    grid.stamp(y) == grid.now()
}

/// Whether a part of a row may have changed since the number was last raised.
pub fn is_part_marked(grid: &Grid, y: u16, left: u16, n: u16) -> bool
    requires row { y < grid.now.height }
    requires columns { left + n ≤ grid.now.width }
    ensures { result ≡ false → IsPartUntouched grid.now left n y }
{
    is_untouched_in_parts();
    is_marked(grid, y)
}

/// A cell changes after the number was raised: the moment has the cells before.
pub fn raise_and_set(grid: &mut Grid, number: u64, at: Coord, cell: Cell)
    requires more { grid.old.now < number }
    requires inside { IsInside grid.old at }
    ensures moment { grid.new.moment ≡ Some grid.old.cells }
    ensures number { grid.new.now ≡ number }
{
    grid.set_now(number);
    grid.set(at, cell);
}

/// A cell as it is read has no shade, and its word stays.
pub fn as_read(cell: Cell) -> Cell
    ensures cell { result ≡ plain_cell cell }
    ensures attr { result.attr ≡ plain cell.attr.word }
{
    Cell::new(cell.unit(), Attr::of(cell.attr().bits()))
}

/// Reads a rectangle where the list has room for the cells that a grid has of it, and tells whether it did.
pub fn read_where_room(grid: &Grid, rect: Rect, out: &mut Vec<Cell>) -> bool
    requires empty { out.old.items ≡ [] }
    ensures read { result ≡ true → out.new.items ≡ rect_cells grid.now rect }
{
    if out.capacity() < used_count(grid, rect).min(16384) {
        return false;
    }
    match read_rect(grid, rect, out) {
        Ok(_) => true,
        Err(_) => false,
    }
}

/// Reads a run where the list has room for the cells that there are, and tells whether it did.
pub fn read_run_where_room(grid: &Grid, from: Coord, n: u32, out: &mut Vec<Cell>) -> bool
    requires empty { out.old.items ≡ [] }
    ensures read { result ≡ true → out.new.items ≡ run_cells grid.now from n }
{
    if out.capacity() < run_count(grid, from, n).min(16384) {
        return false;
    }
    match read_run(grid, from, n, out) {
        Ok(_) => true,
        Err(_) => false,
    }
}

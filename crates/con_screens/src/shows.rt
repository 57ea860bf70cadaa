//! Whether a window shows a view. Where the view is known, rows that can't have changed are not looked at.
ghost use Rattle.std.specs.Prelude.{◌≡◌, ◌↔◌, ℕ, ◌+◌, ◌-◌, ◌*◌, ◌^◌, ◌<◌, ◌≤◌, true, false, length, take, drop};
ghost use Rattle.con_units.specs.View.{row_of, row_part};
ghost use Rattle.con_grid.specs.Words.Picture.{IsUntouched};
ghost use Rattle.con_page.specs.Words.Page.{IsPage};
ghost use Rattle.con_page.specs.Sides.{sides};
ghost use Rattle.con_screens.specs.View.{rows_in, view_of};
ghost use Rattle.con_screens.specs.Words.Stamps.{WasShown, IsAsShown};

use crate::view::{corner, cursor_of};
use con_grid::Grid;
use con_screen::Screen;
use con_units::{Cell, Coord, Size, View};

fn is_same(a: Cell, b: Cell) -> bool
    ensures { (result ≡ true) ↔ (a ≡ b) }
{
    a == b
}

// Whether the cells of a grid from a place on are these.
fn has_cells(grid: &Grid, at: usize, cells: &[Cell]) -> bool
    requires inside { at + length cells.now ≤ length grid.now.cells }
    requires near { at < 2 ^ 32 }
    requires few { length cells.now ≤ 512 }
    ensures { (result ≡ true) ↔ (take (length cells.now) (drop at grid.now.cells) ≡ cells.now) }
{
    for x in 0..cells.len() {
        if !is_same(grid.at(at + x), cells[x]) {
            return false;
        }
    }
    true
}

// Whether the cells of a row from a column on are these; in a row that is untouched they are, where that is known.
fn has_row(grid: &Grid, left: usize, y: usize, cells: &[Cell], known: bool) -> bool
    requires right { left + length cells.now ≤ grid.now.width }
    requires below { y < grid.now.height }
    requires known { known ≡ true → IsUntouched grid.now y → row_part grid.now.width grid.now.cells left (length cells.now) y ≡ cells.now }
    ensures { (result ≡ true) ↔ (row_part grid.now.width grid.now.cells left (length cells.now) y ≡ cells.now) }
{
    let size = grid.size();
    if known {
        if grid.stamp(y as u16) < grid.now() {
            return true;
        }
    }
    has_cells(grid, y * size.w as usize + left, cells)
}

/// Whether a window of a grid has these cells, row by row.
fn has_rows(grid: &Grid, left: usize, top: usize, size: Size, rows: &[Cell], known: bool) -> bool
    requires right { left + size.w ≤ grid.now.width }
    requires bottom { top + size.h ≤ grid.now.height }
    requires limits { (grid.now.width ≤ 512) × (grid.now.height ≤ 2048) }
    requires count { length rows.now ≡ size.h * size.w }
    requires known { known ≡ true → (y : ℕ) → y < size.h → IsUntouched grid.now (top + y)
        → row_part grid.now.width grid.now.cells left size.w (top + y) ≡ row_of size.w rows.now y }
    ensures { (result ≡ true) ↔ (rows_in grid.now.width grid.now.cells left top size.w size.h ≡ rows.now) }
{
    let w = size.w as usize;
    for y in 0..size.h as usize {
        let rest = &rows[y * w..];
        if !has_row(grid, left, top + y, &rest[..w], known) {
            return false;
        }
    }
    true
}

// Whether a view has this size, cursor and visibility.
fn has_frame(view: &View, size: Size, cursor: Coord, visible: bool) -> bool
    ensures { (result ≡ true) ↔ ((view.now.size ≡ size) × (view.now.cursor ≡ cursor) × (view.now.visible ≡ visible)) }
{
    view.size == size && view.cursor == cursor && view.visible == visible
}

// The same of any number of cells.
fn has_all_rows(
    grid: &Grid,
    left: usize,
    top: usize,
    size: Size,
    rows: &[Cell],
    known: bool,
) -> bool
    requires right { left + size.w ≤ grid.now.width }
    requires bottom { top + size.h ≤ grid.now.height }
    requires known { known ≡ true → (y : ℕ) → y < size.h → IsUntouched grid.now (top + y)
        → row_part grid.now.width grid.now.cells left size.w (top + y) ≡ row_of size.w rows.now y }
    ensures { (result ≡ true) ↔ (rows_in grid.now.width grid.now.cells left top size.w size.h ≡ rows.now) }
{
    let full = grid.size();
    let count = size.h as usize * size.w as usize;
    if rows.len() != count {
        return false;
    }
    has_rows(grid, left, top, size, rows, known)
}

/// Whether a screen's window shows the view.
pub fn shows_view(screen: &Screen, size: Size, last: &View, known: bool) -> bool
    requires page { IsPage screen.now.page }
    requires wide { size.w ≡ screen.now.page.w }
    requires tall { size.h ≡ screen.now.page.h }
    requires known { known ≡ true → WasShown (sides screen.now.page) screen.now.page.left screen.now.page.top last.now }
    ensures { (result ≡ true) ↔ (view_of screen.now.page ≡ last.now) }
{
    let (cursor, visible) = cursor_of(screen, size);
    let (left, top) = corner(screen);
    if !has_frame(last, size, cursor, visible) {
        return false;
    }
    has_all_rows(screen.grid(), left, top, size, last.rows.as_slice(), known)
}

/// Whether a row of a screen's window may have changed since the number was last raised.
pub fn is_stamped(screen: &Screen, y: u16) -> bool
    requires page { IsPage screen.now.page }
    requires below { y < screen.now.page.h }
    ensures { result ≡ false → IsAsShown screen.now.page y }
{
    let (_, top) = corner(screen);
    let grid = screen.grid();
    grid.now() <= grid.stamp((top + y as usize) as u16)
}

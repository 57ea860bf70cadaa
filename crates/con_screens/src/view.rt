//! The window of a screen.
ghost use Rattle.std.specs.Prelude.{◌≡◌, ℕ, ◌+◌, ◌-◌, ◌*◌, ◌<◌, ◌≤◌, ◌^◌, ◌++◌, [], pos, length, take, drop, vec_capacity};
ghost use Rattle.con_units.specs.View.{row_of, row_part};
ghost use Rattle.con_grid.specs.Words.Picture.{IsPicture, IsUntouched};
ghost use Rattle.con_page.specs.Words.Page.{IsPage};
ghost use Rattle.con_page.specs.Sides.{sides};
ghost use Rattle.con_screens.specs.View.{view_of, is_from, rows_in, cursor_shown};
ghost use Rattle.con_screens.specs.Words.View.{cursor_in};
ghost use Rattle.con_screens.specs.Words.Stamps.{WasShown};

use con_grid::Grid;
use con_screen::Screen;
use con_units::{Cell, Coord, Rows, Size, View, index_of};

// The cells of a window, row by row.
fn read_window(grid: &Grid, left: usize, top: usize, w: usize, h: usize, out: &mut Vec<Cell>)
    requires right { left + w ≤ grid.now.width }
    requires bottom { top + h ≤ grid.now.height }
    requires empty { out.old.items ≡ [] }
    requires spare { w * h ≤ vec_capacity out.old }
    ensures { out.new.items ≡ rows_in grid.now.width grid.now.cells left top w h }
{
    let width = grid.size().w as usize;
    for y in 0..h {
        for x in 0..w {
            out.push_reserved(grid.at((top + y) * width + (left + x)));
        }
    }
}

// Writes so many cells of a grid, from a place on, over those from another place on.
fn read_row(grid: &Grid, at: usize, cells: &mut [Cell], from: usize, n: usize)
    requires near { at < 2 ^ 32 }
    requires inside { at + n ≤ length grid.now.cells }
    requires room { from + n ≤ length cells.old }
    ensures { cells.new ≡ take from cells.old ++ (take n (drop at grid.now.cells) ++ drop (from + n) cells.old) }
{
    for x in 0..n {
        cells[from + x] = grid.at(at + x);
    }
}

// The same of cells of one row, which are there already where the row is untouched.
fn renew_row(grid: &Grid, y: u16, at: usize, cells: &mut [Cell], from: usize, n: usize)
    requires below { y < grid.now.height }
    requires near { at < 2 ^ 32 }
    requires inside { at + n ≤ length grid.now.cells }
    requires room { from + n ≤ length cells.old }
    requires known { IsUntouched grid.now y → take n (drop at grid.now.cells) ≡ take n (drop from cells.old) }
    ensures { cells.new ≡ take from cells.old ++ (take n (drop at grid.now.cells) ++ drop (from + n) cells.old) }
{
    if grid.stamp(y) < grid.now() {
        return;
    }
    read_row(grid, at, cells, from, n);
}

// Makes cells those of a window, row by row, where those of rows that are untouched are there already.
fn renew_rows(grid: &Grid, left: usize, top: usize, size: Size, cells: &mut [Cell])
    requires right { left + size.w ≤ grid.now.width }
    requires bottom { top + size.h ≤ grid.now.height }
    requires count { length cells.old ≡ size.h * size.w }
    requires known { (y : ℕ) → y < size.h → IsUntouched grid.now (top + y)
        → row_part grid.now.width grid.now.cells left size.w (top + y) ≡ row_of size.w cells.old y }
    ensures { cells.new ≡ rows_in grid.now.width grid.now.cells left top size.w size.h }
{
    let width = grid.size().w as usize;
    let w = size.w as usize;
    for y in 0..size.h as usize {
        let row = top + y;
        renew_row(grid, row as u16, row * width + left, cells, y * w, w);
    }
}

// The same of cells in a vector.
fn renew_cells(grid: &Grid, left: usize, top: usize, size: Size, cells: &mut Vec<Cell>)
    requires right { left + size.w ≤ grid.now.width }
    requires bottom { top + size.h ≤ grid.now.height }
    requires count { length cells.old.items ≡ size.h * size.w }
    requires known { (y : ℕ) → y < size.h → IsUntouched grid.now (top + y)
        → row_part grid.now.width grid.now.cells left size.w (top + y) ≡ row_of size.w cells.old.items y }
    ensures { cells.new.items ≡ rows_in grid.now.width grid.now.cells left top size.w size.h }
{
    renew_rows(grid, left, top, size, cells.as_mut_slice());
}

fn is_from(first: usize, n: usize, at: usize) -> bool
    requires { first + n < 2 ^ 16 }
    ensures { result ≡ is_from first n at }
{
    first <= at && at < first + n
}

fn coord(x: usize, y: usize) -> Coord
    requires x { x < 2 ^ 15 }
    requires y { y < 2 ^ 15 }
    ensures { result ≡ record { x = pos x; y = pos y } }
{
    Coord {
        x: x as i16,
        y: y as i16,
    }
}

/// The column and row of a window's upper left cell.
pub fn corner(screen: &Screen) -> (usize, usize)
    requires { IsPage screen.now.page }
    ensures left { result.0 ≡ screen.now.page.left }
    ensures top { result.1 ≡ screen.now.page.top }
{
    let info = screen.info();
    (index_of(info.window.left), index_of(info.window.top))
}

/// The place of the cursor in the window, (0, 0) where it is not shown, and whether it is.
pub fn cursor_of(screen: &Screen, size: Size) -> (Coord, bool)
    requires page { IsPage screen.now.page }
    requires wide { size.w ≡ screen.now.page.w }
    requires tall { size.h ≡ screen.now.page.h }
    ensures place { result.0 ≡ cursor_in screen.now.page }
    ensures shown { result.1 ≡ cursor_shown screen.now.page }
{
    let info = screen.info();
    let left = index_of(info.window.left);
    let top = index_of(info.window.top);
    let x = index_of(info.cursor.x);
    let y = index_of(info.cursor.y);
    let visible = info.visible
        && is_from(left, size.w as usize, x)
        && is_from(top, size.h as usize, y);
    let cursor = if visible {
        coord(x - left, y - top)
    } else {
        coord(0, 0)
    };
    (cursor, visible)
}

/// The window of a screen, in a vector that has room for its cells.
pub fn window_of(screen: &Screen, size: Size, rows: Vec<Cell>) -> View
    requires page { IsPage screen.now.page }
    requires wide { size.w ≡ screen.now.page.w }
    requires tall { size.h ≡ screen.now.page.h }
    requires empty { rows.items ≡ [] }
    requires spare { size.w * size.h ≤ vec_capacity rows }
    ensures { result ≡ view_of screen.now.page }
{
    let mut rows = rows;
    let (left, top) = corner(screen);
    let (cursor, visible) = cursor_of(screen, size);
    read_window(
        screen.grid(),
        left,
        top,
        size.w as usize,
        size.h as usize,
        &mut rows,
    );
    View {
        size,
        rows: Rows(rows),
        cursor,
        visible,
    }
}

/// The window of a screen, in the place of the view that was shown when the number of its grid was last raised. Only rows that are
/// stamped are read.
pub fn renewed(screen: &Screen, size: Size, last: View) -> View
    requires page { IsPage screen.now.page }
    requires wide { size.w ≡ screen.now.page.w }
    requires tall { size.h ≡ screen.now.page.h }
    requires known { WasShown (sides screen.now.page) screen.now.page.left screen.now.page.top last }
    ensures { result ≡ view_of screen.now.page }
{
    let mut rows = last.into_rows();
    let (left, top) = corner(screen);
    let (cursor, shown) = cursor_of(screen, size);
    renew_cells(screen.grid(), left, top, size, &mut rows.0);
    View {
        size,
        rows,
        cursor,
        visible: shown,
    }
}

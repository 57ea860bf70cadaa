//! Writing over the cells of a rectangle.
ghost use Rattle.std.specs.Prelude.{true, ◌≡◌, pos, ◌-ℤ◌, ◌+◌, ◌*◌, ◌<◌, ◌≤◌, ◌^◌, length, slice_index_or, IfOk, IfErr};
ghost use Rattle.con_units.specs.Natural.{natural};
ghost use Rattle.con_units.specs.Glyph.{plain_cell};
ghost use Rattle.con_units.specs.declared.code.Code.TheVariants.{Limit};
ghost use Rattle.con_grid.specs.Words.Picture.{IsPicture};
ghost use Rattle.con_rects.specs.Area.{used_size, used_rect, cell_count};
ghost use Rattle.con_rects.specs.Rules.{rect_written, redrawn};
ghost use Rattle.con_rects.specs.Parts.{wide, area_in, has_cells, blank, rect_rule};

use crate::area::{Area, area_of, wide_of};
use con_grid::Grid;
use con_units::{Cell, Code, Rect};

/// How far a column or row is from another, and 0 where it is before it.
pub fn along(from: i16, at: usize) -> usize
    requires { at < 2 ^ 15 }
    ensures { result ≡ natural (pos at -ℤ from) }
{
    let by = at as i32 - i32::from(from);
    if by < 0 { 0 } else { by as usize }
}

/// The given cell of a rectangle for a place of it, with plain shades.
fn given(rect: &Rect, cells: &[Cell], x: usize, y: usize) -> Cell
    requires x { x < 512 }
    requires y { y < 2048 }
    requires has { natural (pos y -ℤ rect.now.top) * wide rect.now + natural (pos x -ℤ rect.now.left) < length cells.now }
    ensures { result ≡ plain_cell (slice_index_or cells.now (natural (pos y -ℤ rect.now.top) * wide rect.now + natural (pos x -ℤ rect.now.left)) blank) }
{
    let row = along(rect.top, y);
    let column = along(rect.left, x);
    cells[row * wide_of(rect) + column].plain()
}

fn write_area(grid: &mut Grid, area: &Area, rect: &Rect, cells: &[Cell])
    requires area { area.now ≡ area_in rect.now grid.old.width grid.old.height }
    requires some { has_cells area.now ≡ true }
    requires full { length cells.now ≡ cell_count rect.now }
    ensures grid { grid.new ≡ redrawn grid.old (rect_rule grid.old rect.now cells.now) }
    ensures picture { IsPicture grid.new }
{
    let width = grid.size().w as usize;
    for y in area.top..area.bottom {
        for x in area.left..area.right {
            grid.put(y * width + x, given(rect, cells, x, y));
        }
    }
}

/// Writes cells, which are given row by row, with plain shades over the part of a rectangle that the grid has, and tells
/// that part (`WriteConsoleOutput`).
///
/// `Limit` says that this part has more than 16,384 cells.
pub fn write_rect(grid: &mut Grid, rect: Rect, cells: &[Cell]) -> Result<Rect, Code>
    requires full { length cells.now ≡ cell_count rect }
    ensures done { IfOk result (λ r. (used_size rect grid.old.width grid.old.height ≤ 16384) × (r ≡ used_rect rect grid.old.width grid.old.height)
        × (grid.new ≡ rect_written grid.old rect cells.now)) }
    ensures refused { IfErr result (λ e. (e ≡ Limit) × (16384 < used_size rect grid.old.width grid.old.height) × (grid.new ≡ grid.old)) }
    ensures picture { IsPicture grid.new }
{
    let size = grid.size();
    let area = area_of(&rect, size.w as usize, size.h as usize);
    if 16384 < area.count() {
        return Err(Code::Limit);
    }
    if area.has_cells() {
        write_area(grid, &area, &rect, cells);
    }
    Ok(area.rect())
}

//! Reading the cells of a rectangle or a run.
ghost use Rattle.std.specs.Prelude.{true, take, drop, ◌≡◌, ◌+◌, ◌-◌, ◌*◌, ◌<◌, ◌≤◌, [], min, length, vec_capacity, slice_get, Some, IfOk, IfErr};
ghost use Rattle.con_units.specs.declared.code.Code.TheVariants.{Limit};
ghost use Rattle.con_rects.specs.Area.{used_size, used_rect};
ghost use Rattle.con_rects.specs.Rules.{rect_cells};
ghost use Rattle.con_rects.specs.Parts.{has_cells, area_size, area_cells, as_read};
ghost use Rattle.con_rects.specs.Runs.{run_count, run_cells};

use crate::area::{Area, area_of};
use crate::runs::{room_from, start_of};
use con_grid::Grid;
use con_units::{Cell, Code, Coord, Rect};

// The cell at a place, with plain shades.
fn read_cell(grid: &Grid, at: usize) -> Cell
    requires { at < length grid.now.cells }
    ensures { slice_get (as_read grid.now).cells at ≡ Some result }
{
    grid.at(at).plain()
}

fn read_area(grid: &Grid, area: &Area, out: &mut Vec<Cell>)
    requires right { area.now.right ≤ grid.now.width }
    requires bottom { area.now.bottom ≤ grid.now.height }
    requires some { has_cells area.now ≡ true }
    requires empty { out.old.items ≡ [] }
    requires spare { area_size area.now ≤ vec_capacity out.old }
    ensures cells { out.new.items ≡ area_cells (as_read grid.now) area.now }
    ensures capacity { vec_capacity out.new ≡ vec_capacity out.old }
{
    let width = grid.size().w as usize;
    for y in area.top..area.bottom {
        for x in area.left..area.right {
            out.push_reserved(read_cell(grid, y * width + x));
        }
    }
}

/// Reads the part of a rectangle that the grid has, row by row and with plain shades, and tells that part
/// (`ReadConsoleOutput`).
///
/// `Limit` says that this part has more than 16,384 cells.
pub fn read_rect(grid: &Grid, rect: Rect, out: &mut Vec<Cell>) -> Result<Rect, Code>
    requires empty { out.old.items ≡ [] }
    requires spare { min 16384 (used_size rect grid.now.width grid.now.height) ≤ vec_capacity out.old }
    ensures done { IfOk result (λ r. (used_size rect grid.now.width grid.now.height ≤ 16384) × (r ≡ used_rect rect grid.now.width grid.now.height)
        × (out.new.items ≡ rect_cells grid.now rect)) }
    ensures refused { IfErr result (λ e. (e ≡ Limit) × (16384 < used_size rect grid.now.width grid.now.height) × (out.new.items ≡ [])) }
{
    let size = grid.size();
    let area = area_of(&rect, size.w as usize, size.h as usize);
    if 16384 < area.count() {
        return Err(Code::Limit);
    }
    if area.has_cells() {
        read_area(grid, &area, out);
    }
    Ok(area.rect())
}

fn read_cells(grid: &Grid, from: usize, n: usize, out: &mut Vec<Cell>)
    requires inside { 0 < n → from + n ≤ length grid.now.cells }
    requires empty { out.old.items ≡ [] }
    requires spare { n ≤ vec_capacity out.old }
    ensures cells { out.new.items ≡ take n (drop from (as_read grid.now).cells) }
{
    // the grid is a picture, for `cells`
    let _size = grid.size();
    for k in 0..n {
        out.push_reserved(read_cell(grid, from + k));
    }
}

/// Reads n cells row by row from a start, or as many as there are, with plain shades, and tells how many
/// (`ReadConsoleOutputCharacter`, `ReadConsoleOutputAttribute`).
///
/// A start outside the grid reads none. `Limit` says that there are more than 16,384.
pub fn read_run(grid: &Grid, from: Coord, n: u32, out: &mut Vec<Cell>) -> Result<u32, Code>
    requires empty { out.old.items ≡ [] }
    requires spare { min 16384 (run_count grid.now from n) ≤ vec_capacity out.old }
    ensures done { IfOk result (λ r. (run_count grid.now from n ≤ 16384) × (r ≡ run_count grid.now from n) × (out.new.items ≡ run_cells grid.now from n)) }
    ensures refused { IfErr result (λ e. (e ≡ Limit) × (16384 < run_count grid.now from n) × (out.new.items ≡ [])) }
{
    let count = (n as usize).min(room_from(grid, from));
    if 16384 < count {
        return Err(Code::Limit);
    }
    read_cells(grid, start_of(grid, from), count, out);
    Ok(count as u32)
}

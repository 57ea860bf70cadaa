//! What no session shows of a grid, and no contract determines: the numbers of its rows.
ghost use Rattle.std.specs.Prelude.{◌≡◌, IfOk};
ghost use Rattle.con_grid.specs.Words.Picture.{IsPicture};

use con_grid::Grid;
use con_units::{Attr, Cell, Coord, OutOfMemory, Size};
use std::alloc::Global;
use std::test::Fail;

fn cell(unit: u16) -> Cell {
    Cell::new(unit, Attr::of(7))
}

// Three columns and three rows: abc, def, and spaces.
fn letters(alloc: Global) -> Result<Grid, OutOfMemory>
    ensures { IfOk result (λ g. (g.width ≡ 3) × (g.height ≡ 3) × (g.now ≡ 0) × IsPicture g) }
{
    let mut grid = Grid::new(alloc, Size { w: 3, h: 3 }, cell(0x20))?;
    grid.put_units(0, &[0x61, 0x62, 0x63, 0x64, 0x65, 0x66], Attr::of(7));
    Ok(grid)
}

// The numbers of the first three rows.
fn stamps(grid: &Grid) -> [u64; 3] {
    if grid.size().h < 3 {
        return [99; 3];
    }
    [grid.stamp(0), grid.stamp(1), grid.stamp(2)]
}

// The numbers of a new grid, behind a cell that is set, and behind a run that is filled.
fn stamps_of_changes(alloc: Global) -> Result<[[u64; 3]; 3], OutOfMemory> {
    let mut grid = letters(alloc)?;
    let new = stamps(&grid);
    grid.set_now(4);
    grid.set(Coord { x: 1, y: 1 }, cell(0x78));
    let set = stamps(&grid);
    grid.set_now(6);
    grid.fill_run(Coord { x: 2, y: 0 }, 2, cell(0x2D));
    Ok([new, set, stamps(&grid)])
}

// The numbers of a larger grid, and behind rows that move down, up, and out.
fn stamps_of_moves(alloc: Global) -> Result<[[u64; 3]; 4], OutOfMemory> {
    let mut grid = letters(alloc)?;
    grid.set_now(1);
    let larger = stamps(&grid.resized(Size { w: 3, h: 4 }, 1, cell(0x2E))?);
    grid.shift_rows(0, 1, 1, cell(0x2E));
    let down = stamps(&grid);
    grid.shift_rows(1, 2, -1, cell(0x2D));
    let up = stamps(&grid);
    grid.scroll_up(2, cell(0x3D));
    Ok([larger, down, up, stamps(&grid)])
}

#[test]
fn rows_are_stamped(rt: HostRuntime) -> Result<(), Fail> {
    let changes = stamps_of_changes(rt.alloc())?;
    let moves = stamps_of_moves(rt.alloc())?;
    assert!(rt;
        changes == [[0, 0, 0], [0, 4, 0], [6, 6, 0]]
            && moves == [[1, 1, 1], [1, 1, 0], [1, 1, 1], [1, 1, 1]]
    );
    Ok(())
}

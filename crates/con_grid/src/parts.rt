//! Changes of cells that lie in a row.
ghost use Rattle.std.specs.Prelude.{◌≡◌, ℕ, ◌+◌, ◌-◌, ◌*◌, ◌<◌, ◌≤◌, ◌^◌, length, replicate, true, IfOk};
ghost use Rattle.con_grid.specs.Picture.{filled, resized_cells};
ghost use Rattle.con_grid.specs.Words.Picture.{glyphs_of, units_put};
ghost use Rattle.con_units.specs.Plain.{is_plain};
ghost use Rattle.std.specs.List.{list_all};

use crate::ring::Ring;
use con_units::{Attr, Cell, OutOfMemory};
use std::alloc::Global;

/// So many cells.
pub fn repeated(alloc: Global, count: usize, cell: Cell) -> Result<Vec<Cell>, OutOfMemory>
    ensures { IfOk result (λ v. v.items ≡ replicate count cell) }
{
    let mut cells = Vec::new(alloc);
    if cells.resize(count, cell).is_err() {
        return Err(OutOfMemory);
    }
    Ok(cells)
}

/// Writes a cell over the cells from one place up to another.
#[tactic(auto, unfolding(crate::specs::Picture::filled))]
pub fn fill(cells: &mut [Cell], from: usize, upto: usize, cell: Cell)
    requires order { from ≤ upto }
    requires inside { upto ≤ length cells.old }
    ensures { cells.new ≡ filled cells.old from upto cell }
{
    for at in from..upto {
        cells[at] = cell;
    }
}

/// Writes a cell over the cells from one place on, and over those in front of another.
pub fn fill_ends(cells: &mut [Cell], from: usize, upto: usize, cell: Cell)
    requires { (from ≤ length cells.old) × (upto ≤ length cells.old) }
    ensures { cells.new ≡ filled (filled cells.old from (length cells.old) cell) 0 upto cell }
{
    let count = cells.len();
    fill(cells, from, count, cell);
    fill(cells, 0, upto, cell);
}

/// Makes the cells those that show the units in an attribute.
pub fn show(row: &mut [Cell], units: &[u16], attr: Attr)
    requires { length row.old ≡ length units.now }
    ensures { row.new ≡ glyphs_of units.now attr }
{
    for (k, unit) in units.iter().enumerate() {
        row[k] = Cell::new(*unit, attr);
    }
}

/// Writes the cells that show the units in an attribute, from one place on.
#[tactic(auto, unfolding(crate::specs::Words::Picture::units_put))]
pub fn put_units(cells: &mut [Cell], at: usize, units: &[u16], attr: Attr)
    requires { at + length units.now ≤ length cells.old }
    ensures { cells.new ≡ units_put cells.old at units.now attr }
{
    show(&mut cells[at..at + units.len()], units, attr);
}

/// Makes the cells those that show units of printable ASCII in an attribute, many at a time.
pub fn show_plain(row: &mut [Cell], units: &[u16], attr: Attr)
    requires same { length row.old ≡ length units.now }
    requires plain { list_all is_plain units.now ≡ true }
    ensures { row.new ≡ glyphs_of units.now attr }
{
    for (k, unit) in units.iter().enumerate() {
        row[k] = Cell::of_plain(*unit, attr);
    }
}

/// Writes the cells that show units of printable ASCII in an attribute, from one place on.
#[tactic(auto, unfolding(crate::specs::Words::Picture::units_put))]
pub fn put_plain(cells: &mut [Cell], at: usize, units: &[u16], attr: Attr)
    requires inside { at + length units.now ≤ length cells.old }
    requires plain { list_all is_plain units.now ≡ true }
    ensures { cells.new ≡ units_put cells.old at units.now attr }
{
    show_plain(&mut cells[at..at + units.len()], units, attr);
}

/// Writes over the cells of a grid of one width those of another, without its first rows.
#[tactic(auto, unfolding(crate::specs::Picture::resized_cells))]
pub fn copy_cells(
    cells: &mut [Cell],
    width: usize,
    old: &Ring,
    old_width: usize,
    old_height: usize,
    lost: usize,
    blank: Cell,
)
    requires wide { 0 < width }
    requires few { length cells.old ≤ 2 ^ 20 }
    requires lost { lost < 2 ^ 16 }
    requires narrow { old_width ≤ 512 }
    requires low { old_height ≤ 2048 }
    requires old { length old.now ≡ old_width * old_height }
    ensures { (h : ℕ) → length cells.old ≡ width * h → cells.new ≡ resized_cells old.now old_width width h lost blank }
{
    for i in 0..cells.len() {
        let x = i % width;
        let y = i / width + lost;
        cells[i] = if x < old_width && y < old_height {
            old.get(y * old_width + x)
        } else {
            blank
        };
    }
}

//! Cells in a row.
ghost use Rattle.std.specs.Prelude.{◌≡◌, ◌+◌, ◌≤◌, ◌<◌, ◌++◌, length, take, drop, map, [], true, vec_capacity};
ghost use Rattle.con_units.specs.Glyph.{cell_of};
ghost use Rattle.con_units.specs.Plain.{is_plain as is_plain_unit};
ghost use Rattle.std.specs.List.{list_all};
ghost use Rattle.con_term.specs.Page.{filled};
ghost use Rattle.con_term.specs.Run.{pasted};

use con_units::{Attr, Cell};
use con_vtgram::is_plain;

// How many cells are copied at once.
const PIECE: usize = 256;

/// Writes the cell from one place up to another.
pub fn fill(cells: &mut [Cell], from: usize, upto: usize, cell: Cell)
    requires order { from ≤ upto }
    requires inside { upto ≤ length cells.old }
    ensures { cells.new ≡ filled cells.old from upto cell }
{
    for at in from..upto {
        cells[at] = cell;
    }
}

/// Writes the cell from one place of a list up to another.
pub fn fill_in(cells: &mut Vec<Cell>, from: usize, upto: usize, cell: Cell)
    requires order { from ≤ upto }
    requires inside { upto ≤ length cells.old.items }
    ensures len { length cells.new.items ≡ length cells.old.items }
    ensures cells { cells.new.items ≡ filled cells.old.items from upto cell }
{
    fill(cells.as_mut_slice(), from, upto, cell);
}

/// Copies the cells into an empty list that has room for them.
pub fn copy_into(list: &mut Vec<Cell>, cells: &[Cell])
    requires none { list.old.items ≡ [] }
    requires room { length cells.now ≤ vec_capacity list.old }
    ensures { list.new.items ≡ cells.now }
{
    let _ = list.extend_from_slice(cells);
}

// Copies the cells over as many others. In pieces, each of which is moved through vector registers.
fn copy_over(to: &mut [Cell], from: &[Cell])
    requires { length to.old ≡ length from.now }
    ensures { to.new ≡ from.now }
{
    let mut at = 0;
    while at < from.len() {
        let end = from.len().min(at + PIECE);
        to[at..end].copy_from_slice(&from[at..end]);
        at = end;
    }
}

/// So many cells from a place on are copied to the front.
pub fn move_front(cells: &mut [Cell], from: usize, count: usize)
    requires apart { count ≤ from }
    requires inside { from + count ≤ length cells.old }
    ensures len { length cells.new ≡ length cells.old }
    ensures cells { cells.new ≡ take count (drop from cells.old) ++ drop count cells.old }
{
    let (front, back) = cells.split_at_mut(from);
    copy_over(&mut front[..count], &back[..count]);
}

// Writes the bytes of printable ASCII at the front from a place on, one a cell, and tells how many.
fn write_plain(cells: &mut [Cell], from: usize, bytes: &[u8], most: usize, attr: Attr) -> usize
    requires some { most ≤ length bytes.now }
    requires room { from + most ≤ length cells.old }
    ensures few { result ≤ most }
    ensures plain { list_all is_plain_unit (take result bytes.now) ≡ true }
    ensures cells { cells.new ≡ pasted cells.old from (map (λ u. cell_of u attr) (take result bytes.now)) }
{
    let mut at = 0;
    while at < most {
        let unit = bytes[at] as u16;
        if !is_plain(unit) {
            return at;
        }
        cells[from + at] = Cell::new(unit, attr);
        at += 1;
    }
    at
}

/// Writes at most so many bytes of printable ASCII at the front from a place on, one a cell, and tells how many.
pub fn write_run(cells: &mut Vec<Cell>, from: usize, bytes: &[u8], most: usize, attr: Attr) -> usize
    requires some { most ≤ length bytes.now }
    requires room { from + most ≤ length cells.old.items }
    ensures few { result ≤ most }
    ensures plain { list_all is_plain_unit (take result bytes.now) ≡ true }
    ensures len { length cells.new.items ≡ length cells.old.items }
    ensures cells { cells.new.items ≡ pasted cells.old.items from (map (λ u. cell_of u attr) (take result bytes.now)) }
{
    write_plain(cells.as_mut_slice(), from, bytes, most, attr)
}

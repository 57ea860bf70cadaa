//! Cells in a list of which the last are known to be one cell, so that nothing is written where they become it.
ghost use Rattle.std.specs.Prelude.{IfOk, ℕ, ◌≡◌, ◌+◌, ◌-◌, ◌<◌, ◌≤◌, ◌++◌, length, take, drop, map, replicate, slice_set, min, true};
ghost use Rattle.std.specs.List.{list_all};
ghost use Rattle.con_units.specs.Glyph.{cell_of};
ghost use Rattle.con_units.specs.Plain.{is_plain};
ghost use Rattle.con_term.specs.Page.{filled};
ghost use Rattle.con_term.specs.Run.{pasted};

use crate::cells::{fill_in, move_front, write_run};
use con_units::{Attr, Cell};
use std::alloc::{AllocError, Global};
use std::marker::Model;

/// A list of cells. Contracts see them alone.
#[derive(Drop)]
pub struct Sheet {
    cells: Vec<Cell>,
    blank: Cell,
    bare: usize,
}

impl Model for Sheet {
    ghost use Rattle.std.specs.Prelude.{List};
    ghost use Rattle.con_units.specs.Glyph.{Glyph};

    ghost Value = { List Glyph };

    ghost use Rattle.con_term.specs.SheetView.{cells_of, IsSheet};

    ghost view = { cells_of };

    ghost invariant = { IsSheet };
}

impl Sheet {
    /// As many of one cell.
    pub fn new(alloc: Global, count: usize, cell: Cell) -> Result<Sheet, AllocError>
        ensures { IfOk result (λ sheet. sheet ≡ replicate count cell) }
    {
        let cells = Vec::from_elem(alloc, cell, count)?;
        Ok(Sheet {
            cells,
            blank: cell,
            bare: 0,
        })
    }

    /// Their allocator.
    pub fn allocator(&self) -> Global {
        *self.cells.allocator()
    }

    /// How many there are.
    pub fn len(&self) -> usize
        ensures { result ≡ length self.now }
    {
        self.cells.len()
    }

    /// All of them.
    pub fn as_slice(&self) -> &[Cell]
        ensures { result.now ≡ self.now }
    {
        self.cells.as_slice()
    }

    /// Writes one.
    pub fn set(&mut self, at: usize, cell: Cell)
        requires { at < length self.old }
        ensures len { length self.new ≡ length self.old }
        ensures cells { self.new ≡ slice_set self.old at cell }
    {
        self.cells[at] = cell;
        self.bare = greater(self.bare, at + 1);
    }

    /// Writes the cell from one place up to another. Where it is what the last cells are known to be, they are not written.
    pub fn fill(&mut self, from: usize, upto: usize, cell: Cell)
        requires order { from ≤ upto }
        requires inside { upto ≤ length self.old }
        ensures len { length self.new ≡ length self.old }
        ensures cells { self.new ≡ filled self.old from upto cell }
    {
        if goes_on(self.bare, upto, self.blank, cell) {
            if from < self.bare {
                let end = self.bare;
                fill_in(&mut self.cells, from, end, cell);
                self.bare = from;
            }
        } else {
            fill_in(&mut self.cells, from, upto, cell);
            self.bare = greater(self.bare, upto);
        }
    }

    /// Writes at most so many bytes of printable ASCII at the front from a place on, one a cell, and tells how many.
    pub fn write_run(&mut self, from: usize, bytes: &[u8], most: usize, attr: Attr) -> usize
        requires some { most ≤ length bytes.now }
        requires room { from + most ≤ length self.old }
        ensures few { result ≤ most }
        ensures plain { list_all is_plain (take result bytes.now) ≡ true }
        ensures len { length self.new ≡ length self.old }
        ensures cells { self.new ≡ pasted self.old from (map (λ u. cell_of u attr) (take result bytes.now)) }
    {
        let count = write_run(&mut self.cells, from, bytes, most, attr);
        self.bare = greater(self.bare, from + count);
        count
    }

    /// So many cells from a place on go to the front, and all behind them become one cell. Where it is what the last cells
    /// are known to be, these are neither moved nor written.
    pub fn pull(&mut self, from: usize, kept: usize, cell: Cell)
        requires apart { kept ≤ from }
        requires inside { from + kept ≤ length self.old }
        ensures len { length self.new ≡ length self.old }
        ensures cells { self.new ≡ take kept (drop from self.old) ++ replicate (length self.old - kept) cell }
    {
        if is_same(cell, self.blank) {
            let copied = lesser(kept, self.bare.saturating_sub(from));
            let end = greater(self.bare, copied);
            pull_in(&mut self.cells, from, copied, end, cell);
            self.bare = copied;
        } else {
            let end = count(&self.cells);
            pull_in(&mut self.cells, from, kept, end, cell);
            self.bare = kept;
            self.blank = cell;
        }
    }
}

fn lesser(a: usize, b: usize) -> usize
    ensures { result ≡ min a b }
{
    a.min(b)
}

fn greater(a: usize, b: usize) -> usize
    ensures above { (a ≤ result) × (b ≤ result) }
    ensures least { (n : ℕ) → a ≤ n → b ≤ n → result ≤ n }
{
    if a < b { b } else { a }
}

fn count(cells: &Vec<Cell>) -> usize
    ensures { result ≡ length cells.now.items }
{
    cells.len()
}

fn is_same(a: Cell, b: Cell) -> bool
    ensures { result ≡ true → a ≡ b }
{
    a == b
}

// Whether the cells from one place on, which are one cell, go on with it up to another.
fn goes_on(bare: usize, upto: usize, blank: Cell, cell: Cell) -> bool
    ensures inside { result ≡ true → bare ≤ upto }
    ensures same { result ≡ true → cell ≡ blank }
{
    if bare <= upto {
        is_same(cell, blank)
    } else {
        false
    }
}

// So many cells from a place on go to the front, and those behind them up to another place become one cell.
fn pull_in(cells: &mut Vec<Cell>, from: usize, count: usize, upto: usize, cell: Cell)
    requires apart { count ≤ from }
    requires inside { from + count ≤ length cells.old.items }
    requires behind { (count ≤ upto) × (upto ≤ length cells.old.items) }
    ensures len { length cells.new.items ≡ length cells.old.items }
    ensures cells { cells.new.items ≡ filled (take count (drop from cells.old.items) ++ drop count cells.old.items) count upto cell }
{
    move_front(cells.as_mut_slice(), from, count);
    fill_in(cells, count, upto, cell);
}

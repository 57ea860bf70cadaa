//! Cells in a block of twice as many, so that they are lifted by going on in it.
ghost use Rattle.std.specs.Prelude.{IfOk, ◌≡◌, ◌+◌, ◌-◌, ◌<◌, ◌≤◌, ◌++◌, length, take, drop, map, replicate, slice_set, true};
ghost use Rattle.std.specs.List.{list_all};
ghost use Rattle.con_units.specs.Glyph.{cell_of};
ghost use Rattle.con_units.specs.Plain.{is_plain};
ghost use Rattle.con_term.specs.Page.{filled};
ghost use Rattle.con_term.specs.Run.{pasted};

use crate::sheet::Sheet;
use con_units::{Attr, Cell};
use std::alloc::{AllocError, Global};
use std::marker::Model;

/// So many cells, from a start in the block on. Contracts see them alone.
#[derive(Drop)]
pub struct Block {
    cells: Sheet,
    start: usize,
    count: usize,
}

impl Model for Block {
    ghost use Rattle.std.specs.Prelude.{List};
    ghost use Rattle.con_units.specs.Glyph.{Glyph};

    ghost Value = { List Glyph };

    ghost use Rattle.con_term.specs.BlockView.{shown_of, IsBlock};

    ghost view = { shown_of };

    ghost invariant = { IsBlock };
}

impl Block {
    /// As many of one cell; at most 131,072.
    pub fn new(alloc: Global, count: usize, cell: Cell) -> Result<Block, AllocError>
        requires { count ≤ 131072 }
        ensures { IfOk result (λ block. block ≡ replicate count cell) }
    {
        let cells = Sheet::new(alloc, count + count, cell)?;
        Ok(Block {
            cells,
            start: 0,
            count,
        })
    }

    /// Their allocator.
    pub fn allocator(&self) -> Global {
        self.cells.allocator()
    }

    /// How many there are.
    pub fn len(&self) -> usize
        ensures count { result ≡ length self.now }
        ensures few { result ≤ 131072 }
    {
        self.count
    }

    /// All of them.
    pub fn as_slice(&self) -> &[Cell]
        ensures { result.now ≡ self.now }
    {
        let from = self.start;
        &self.cells.as_slice()[from..from + self.count]
    }

    /// Writes one.
    pub fn set(&mut self, at: usize, cell: Cell)
        requires { at < length self.old }
        ensures { self.new ≡ slice_set self.old at cell }
    {
        let place = self.start + at;
        self.cells.set(place, cell);
    }

    /// Writes the cell from one place up to another.
    pub fn fill(&mut self, from: usize, upto: usize, cell: Cell)
        requires order { from ≤ upto }
        requires inside { upto ≤ length self.old }
        ensures len { length self.new ≡ length self.old }
        ensures cells { self.new ≡ filled self.old from upto cell }
    {
        let start = self.start;
        self.cells.fill(start + from, start + upto, cell);
    }

    /// Writes at most so many bytes of printable ASCII at the front from a place on, one a cell, and tells how many.
    pub fn write_run(&mut self, from: usize, bytes: &[u8], most: usize, attr: Attr) -> usize
        requires some { most ≤ length bytes.now }
        requires room { from + most ≤ length self.old }
        ensures few { result ≤ most }
        ensures plain { list_all is_plain (take result bytes.now) ≡ true }
        ensures len { length self.new ≡ length self.old }
        ensures cells { self.new ≡ pasted self.old from (map (λ u. cell_of u attr) (take result bytes.now)) }
    {
        let place = self.start + from;
        self.cells.write_run(place, bytes, most, attr)
    }

    /// Lifts them by a count of places, and fills the last ones. The others stay where they are in the block, but where
    /// its end is reached.
    pub fn lift(&mut self, by: usize, cell: Cell)
        requires { by ≤ length self.old }
        ensures { self.new ≡ drop by self.old ++ replicate by cell }
    {
        let start = self.start + by;
        let count = self.count;
        if start <= count {
            let end = self.start + count;
            self.cells.fill(end, start + count, cell);
            self.start = start;
        } else {
            self.cells.pull(start, count - by, cell);
            self.start = 0;
        }
    }
}

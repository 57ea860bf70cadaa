//! The grid.
ghost use Rattle.std.specs.Prelude.{◌≡◌, ℕ, ◌+◌, ◌-◌, ◌*◌, ◌<◌, ◌≤◌, ◌^◌, Some, None, slice_set, slice_get, length, replicate, true, IfOk};
ghost use Rattle.con_grid.specs.Picture.{place, filled, part_lifted, part_lowered, lifted, raised, resized};
ghost use Rattle.con_grid.specs.Words.Picture.{IsInside, IsPicture, IsUntouched, rows_shifted, units_put, cell_of};
ghost use Rattle.con_grid.specs.Parts.{PartsFollowRows};
ghost use Rattle.con_units.specs.Plain.{is_plain};
ghost use Rattle.std.specs.List.{list_all};

use crate::parts;
use crate::ring::Ring;
use crate::stamps::Stamps;
use con_units::{Attr, Cell, Coord, OutOfMemory, Size, index_of};
use std::alloc::Global;
use std::marker::Model;
use std::snapshot::Snapshot;

// The cells when the number was last raised, in proofs alone.
#[derive(Drop)]
enum Moment {
    Never,
    At(Snapshot<Ring>),
}

/// A grid of cells with a number, and a stamp for each row. A row that is not stamped with the number is what it was when
/// the number was last raised.
#[derive(Drop)]
pub struct Grid {
    width: usize,
    height: usize,
    cells: Ring,
    stamps: Stamps,
    moment: Snapshot<Moment>,
}

impl Model for Grid {
    ghost use Rattle.con_grid.specs.Picture.{Picture};

    ghost Value = { Picture };

    ghost use Rattle.con_grid.specs.Inside.{picture_of, IsGrid};

    ghost view = { picture_of };

    ghost invariant = { IsGrid };
}

impl Grid {
    /// Its width and height.
    pub fn size(&self) -> Size
        ensures width { result.w ≡ self.now.width }
        ensures height { result.h ≡ self.now.height }
        ensures picture { IsPicture self.now }
    {
        Size {
            w: self.width as u16,
            h: self.height as u16,
        }
    }

    /// How many cells it has.
    pub fn count(&self) -> usize
        ensures count { result ≡ self.now.width * self.now.height }
        ensures cells { result ≡ length self.now.cells }
        ensures small { result < 2 ^ 21 }
    {
        self.width * self.height
    }

    /// The cell at a place in the list of cells.
    pub fn at(&self, at: usize) -> Cell
        requires { at < length self.now.cells }
        ensures { slice_get self.now.cells at ≡ Some result }
    {
        self.cells.get(at)
    }

    /// The cell of a column and a row.
    pub fn cell(&self, at: Coord) -> Cell
        requires { IsInside self.now at }
        ensures { slice_get self.now.cells (place self.now at) ≡ Some result }
    {
        self.cells.get(index_of(at.y) * self.width + index_of(at.x))
    }

    /// Its number, 0 at first.
    pub fn now(&self) -> u64
        ensures { result ≡ self.now.now }
    {
        self.stamps.now()
    }

    /// A row's stamp, at most the number. Where it is less, the row is what it was when the number was last raised.
    pub fn stamp(&self, row: u16) -> u64
        requires { row < self.now.height }
        ensures bound { result ≤ self.now.now }
        ensures untouched { result < self.now.now → IsUntouched self.now row }
    {
        self.stamps.at(row as usize)
    }

    /// Raises the number, or leaves it. No cell and no stamp changes.
    pub fn set_now(&mut self, number: u64)
        requires { self.old.now ≤ number }
        ensures grid { self.new ≡ raised self.old number }
        ensures picture { IsPicture self.new }
    {
        if self.stamps.now() < number {
            self.moment = Snapshot::of(&Moment::At(Snapshot::of(&self.cells)));
        }
        self.stamps.set_now(number);
    }

    /// Writes a cell over the cells from one place up to another.
    pub fn fill(&mut self, from: usize, upto: usize, cell: Cell)
        requires order { from ≤ upto }
        requires inside { upto ≤ length self.old.cells }
        ensures grid { self.new ≡ record self.old { cells = filled self.old.cells from upto cell } }
        ensures picture { IsPicture self.new }
    {
        let width = self.width;
        self.cells.fill(from, upto, cell);
        self.stamps.stamp_run(width, from, upto);
    }

    /// Lifts the cells from one place up to another.
    pub fn lift(&mut self, from: usize, upto: usize, by: usize, cell: Cell)
        requires order { from ≤ upto }
        requires inside { upto ≤ length self.old.cells }
        ensures grid { self.new ≡ record self.old { cells = part_lifted self.old.cells from upto by cell } }
        ensures picture { IsPicture self.new }
    {
        let width = self.width;
        self.cells.lift_part(from, upto, by, cell);
        self.stamps.stamp_run(width, from, upto);
    }

    /// Lowers the cells from one place up to another.
    pub fn lower(&mut self, from: usize, upto: usize, by: usize, cell: Cell)
        requires order { from ≤ upto }
        requires inside { upto ≤ length self.old.cells }
        ensures grid { self.new ≡ record self.old { cells = part_lowered self.old.cells from upto by cell } }
        ensures picture { IsPicture self.new }
    {
        let width = self.width;
        self.cells.lower_part(from, upto, by, cell);
        self.stamps.stamp_run(width, from, upto);
    }

    /// Writes a cell at a place in the list of cells.
    pub fn put(&mut self, at: usize, cell: Cell)
        requires { at < length self.old.cells }
        ensures grid { self.new ≡ record self.old { cells = slice_set self.old.cells at cell } }
        ensures picture { IsPicture self.new }
    {
        let y = at / self.width;
        self.cells.put(at, cell);
        self.stamps.stamp_row(y);
    }

    /// Writes the cells that show the units in an attribute, from a place in the list of cells on.
    pub fn put_units(&mut self, at: usize, units: &[u16], attr: Attr)
        requires { at + length units.now ≤ length self.old.cells }
        ensures grid { self.new ≡ record self.old { cells = units_put self.old.cells at units.now attr } }
        ensures picture { IsPicture self.new }
    {
        let width = self.width;
        self.cells.put_units(at, units, attr);
        self.stamps.stamp_run(width, at, at + units.len());
    }

    /// Writes the cells that show units of printable ASCII in an attribute, from a place in the list of cells on.
    pub fn put_plain(&mut self, at: usize, units: &[u16], attr: Attr)
        requires inside { at + length units.now ≤ length self.old.cells }
        requires plain { list_all is_plain units.now ≡ true }
        ensures grid { self.new ≡ record self.old { cells = units_put self.old.cells at units.now attr } }
        ensures picture { IsPicture self.new }
    {
        let width = self.width;
        self.cells.put_plain(at, units, attr);
        self.stamps.stamp_run(width, at, at + units.len());
    }

    /// Where a cell stands in the list of cells.
    pub fn place(&self, at: Coord) -> usize
        requires { IsInside self.now at }
        ensures place { result ≡ place self.now at }
        ensures inside { result < length self.now.cells }
        ensures small { result < 2 ^ 21 }
    {
        index_of(at.y) * self.width + index_of(at.x)
    }

    /// Changes the cell at a place.
    pub fn set(&mut self, at: Coord, cell: Cell)
        requires { IsInside self.old at }
        ensures grid { self.new ≡ record self.old { cells = slice_set self.old.cells (place self.old at) cell } }
        ensures picture { IsPicture self.new }
    {
        let at = self.place(at);
        self.put(at, cell);
    }

    /// Makes `n` cells, row by row from a place on, one cell.
    pub fn fill_run(&mut self, from: Coord, n: u32, cell: Cell)
        requires inside { IsInside self.old from }
        requires fits { place self.old from + n ≤ length self.old.cells }
        ensures grid { self.new ≡ record self.old { cells = filled self.old.cells (place self.old from) (place self.old from + n) cell } }
        ensures picture { IsPicture self.new }
    {
        let at = self.place(from);
        self.fill(at, at + n as usize, cell);
    }

    /// Lifts all rows by `k`. The lowest `k` rows, or all where `k` is larger, become `cell`.
    pub fn scroll_up(&mut self, k: u16, cell: Cell)
        ensures grid { self.new ≡ record self.old { cells = lifted self.old.cells (k * self.old.width) cell } }
        ensures picture { IsPicture self.new }
    {
        let count = self.count();
        let width = self.width;
        self.lift(0, count, k as usize * width, cell);
    }

    /// Moves the rows from `top` to `bottom` down by `by`, or up where it is negative. What leaves them is gone, and what
    /// is freed becomes `cell`.
    pub fn shift_rows(&mut self, top: u16, bottom: u16, by: i32, cell: Cell)
        requires order { top ≤ bottom }
        requires inside { bottom < self.old.height }
        ensures grid { self.new ≡ rows_shifted self.old top (bottom + 1) by cell }
        ensures picture { IsPicture self.new }
    {
        let width = self.width;
        let from = top as usize * width;
        let upto = (bottom as usize + 1) * width;
        let n = by.unsigned_abs() as usize * width;
        if by < 0 {
            self.lift(from, upto, n, cell);
        } else {
            self.lower(from, upto, n, cell);
        }
    }

    /// A grid of one cell, with the number 0, and each row of which is stamped 0.
    pub fn new(alloc: Global, size: Size, cell: Cell) -> Result<Grid, OutOfMemory>
        requires some { (0 < size.w) × (0 < size.h) }
        requires few { (size.w ≤ 512) × (size.h ≤ 2048) }
        ensures grid { IfOk result (λ g. g ≡ record { width = size.w; height = size.h; cells = replicate (size.w * size.h) cell; now = 0; moment = None }) }
        ensures picture { IfOk result (λ g. IsPicture g) }
    {
        let cells = Ring::new(alloc, size.w as usize * size.h as usize, cell)?;
        Grid::of(alloc, size, cells, 0)
    }

    // A grid of these cells, each row of which is stamped with its number.
    fn of(alloc: Global, size: Size, cells: Ring, number: u64) -> Result<Grid, OutOfMemory>
        requires some { (0 < size.w) × (0 < size.h) }
        requires few { (size.w ≤ 512) × (size.h ≤ 2048) }
        requires cells { length cells ≡ size.w * size.h }
        ensures grid { IfOk result (λ g. g ≡ record { width = size.w; height = size.h; cells = cells; now = number; moment = None }) }
        ensures picture { IfOk result (λ g. IsPicture g) }
    {
        let width = size.w as usize;
        let height = size.h as usize;
        let stamps = Stamps::new(alloc, height, number)?;
        Ok(Grid {
            width,
            height,
            cells,
            stamps,
            moment: Snapshot::of(&Moment::Never),
        })
    }

    /// A grid of another size, each row of which is stamped with this grid's number. Its row y is this grid's row y + `lost`, cut or filled with
    /// `cell` on the right; where there is no such row, it is of `cell`.
    pub fn resized(&self, size: Size, lost: u16, cell: Cell) -> Result<Grid, OutOfMemory>
        requires some { (0 < size.w) × (0 < size.h) }
        requires few { (size.w ≤ 512) × (size.h ≤ 2048) }
        ensures grid { IfOk result (λ g. g ≡ resized self.now size.w size.h lost cell) }
        ensures cells { IfOk result (λ g. (x y : ℕ) → x < size.w → y < size.h
            → cell_of g.cells size.w x y cell ≡ cell_of self.now.cells self.now.width x (y + lost) cell) }
        ensures picture { IfOk result (λ g. IsPicture g) }
    {
        let alloc = self.cells.allocator();
        let width = size.w as usize;
        let mut block = parts::repeated(alloc, width * size.h as usize, cell)?;
        parts::copy_cells(
            &mut block,
            width,
            &self.cells,
            self.width,
            self.height,
            lost as usize,
            cell,
        );
        let number = self.stamps.now();
        let grid = Grid::of(alloc, size, Ring::of(block), number)?;
        Ok(grid)
    }
}

/// Where a row is what it was when the number was last raised, each part of it is.
pub fn is_untouched_in_parts()
    ensures { PartsFollowRows }
{}

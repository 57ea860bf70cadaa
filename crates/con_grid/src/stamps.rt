//! The stamps of rows.
ghost use Rattle.std.specs.Prelude.{◌≡◌, ◌+◌, ◌-◌, ◌*◌, ◌<◌, ◌≤◌, ◌++◌, length, take, drop, replicate, slice_set, IfOk};
ghost use Rattle.con_grid.specs.Stamps.{stamp_of, AreStampedBy};

use con_units::OutOfMemory;
use std::alloc::Global;
use std::marker::Model;

/// A number, and a stamp for each row: the number at which the row may have changed last. A row that changes gets the
/// number, and every other row keeps its stamp or gets it.
#[derive(Drop)]
pub struct Stamps {
    number: u64,
    rows: Vec<u64>,
}

impl Model for Stamps {
    ghost use Rattle.con_grid.specs.Stamps.{RowStamps, AreStamps};

    ghost Value = { RowStamps };

    ghost view = { λ s. record { now = s.number; rows = s.rows.items } };

    ghost invariant = { λ s. AreStamps (record { now = s.number; rows = s.rows.items }) };
}

// Writes a number over the stamps of the rows from one up to another.
fn write(rows: &mut [u64], from: usize, upto: usize, number: u64)
    requires order { from ≤ upto }
    requires inside { upto ≤ length rows.old }
    ensures { rows.new ≡ take from rows.old ++ (replicate (upto - from) number ++ drop upto rows.old) }
{
    for at in from..upto {
        rows[at] = number;
    }
}

impl Stamps {
    /// So many rows, each with this number as its stamp.
    pub fn new(alloc: Global, height: usize, number: u64) -> Result<Stamps, OutOfMemory>
        ensures { IfOk result (λ s. s ≡ record { now = number; rows = replicate height number }) }
    {
        let mut rows = Vec::new(alloc);
        if rows.resize(height, number).is_err() {
            return Err(OutOfMemory);
        }
        Ok(Stamps { number, rows })
    }

    /// The number.
    pub fn now(&self) -> u64
        ensures { result ≡ self.now.now }
    {
        self.number
    }

    /// A row's stamp.
    pub fn at(&self, row: usize) -> u64
        requires { row < length self.now.rows }
        ensures value { result ≡ stamp_of self.now row }
        ensures bound { result ≤ self.now.now }
    {
        self.rows[row]
    }

    /// Raises the number, or leaves it. No stamp changes.
    pub fn set_now(&mut self, number: u64)
        requires { self.old.now ≤ number }
        ensures { self.new ≡ record self.old { now = number } }
    {
        self.number = number;
    }

    /// Stamps a row with the number.
    pub fn stamp_row(&mut self, row: usize)
        requires { row < length self.old.rows }
        ensures { self.new ≡ record self.old { rows = slice_set self.old.rows row self.old.now } }
    {
        self.rows[row] = self.number;
    }

    /// Stamps the rows from one up to another with the number.
    pub fn stamp_rows(&mut self, from: usize, upto: usize)
        requires order { from ≤ upto }
        requires inside { upto ≤ length self.old.rows }
        ensures { self.new ≡ record self.old { rows = take from self.old.rows ++ (replicate (upto - from) self.old.now ++ drop upto self.old.rows) } }
    {
        let number = self.number;
        write(&mut self.rows, from, upto, number);
    }

    /// Stamps the rows of the cells from one place up to another, where each row has `width` of them.
    pub fn stamp_run(&mut self, width: usize, from: usize, upto: usize)
        requires wide { 0 < width }
        requires order { from ≤ upto }
        requires inside { upto ≤ width * length self.old.rows }
        ensures { AreStampedBy self.old self.new width from upto }
    {
        if from == upto {
            return;
        }
        let first = from / width;
        let last = (upto - 1) / width;
        if first == last {
            self.stamp_row(first);
            return;
        }
        self.stamp_rows(first, last + 1);
    }
}

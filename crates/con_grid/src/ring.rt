//! Cells in a block whose first cell may stand anywhere, so that a scroll of all rows moves none.
ghost use Rattle.std.specs.Prelude.{◌≡◌, ◌+◌, ◌-◌, ◌*◌, ◌<◌, ◌≤◌, List, Some, length, min, replicate, slice_get, slice_set, IfOk, true};
ghost use Rattle.con_units.specs.Glyph.{Glyph};
ghost use Rattle.con_grid.specs.Picture.{filled, lifted, lowered, part_lifted, part_lowered};
ghost use Rattle.con_grid.specs.Words.Picture.{units_put};
ghost use Rattle.con_grid.specs.Ring.{turned, copied, IsRun, IsSpot, IsIndex};
ghost use Rattle.con_units.specs.Plain.{is_plain};
ghost use Rattle.std.specs.List.{list_all};

use crate::parts;
use con_units::{Attr, Cell, OutOfMemory};
use std::alloc::Global;
use std::marker::Model;

/// Cells in one block. Contracts see them in their order.
#[derive(Drop)]
pub struct Ring {
    block: Vec<Cell>,
    top: usize,
}

impl Model for Ring {
    ghost use Rattle.std.specs.Prelude.{List};
    ghost use Rattle.con_units.specs.Glyph.{Glyph};

    ghost Value = { List Glyph };

    ghost use Rattle.con_grid.specs.Ring.{ring_of, IsRing};

    ghost view = { ring_of };

    ghost invariant = { IsRing };
}

// The block ends at a seam and goes on at its start. Cells in their order of which none, or all, lie behind the seam are a run.

// How many of so many cells from a place on lie in front of the seam.
fn front_count(block: &Vec<Cell>, top: usize, from: usize, count: usize) -> usize
    requires { top ≤ length block.now.items }
    ensures { result ≡ min count (length block.now.items - top - from) }
{
    let seam = block.len() - top;
    lesser(count, seam.saturating_sub(from))
}

// Where the cells of a run lie in the block.
fn spot(block: &Vec<Cell>, top: usize, from: usize, upto: usize) -> usize
    requires { IsRun (length block.now.items) top from upto }
    ensures { IsSpot block.now.items top from upto result }
{
    let seam = block.len() - top;
    if from < seam { top + from } else { from - seam }
}

// Where the cell at a place lies in the block.
fn index(block: &Vec<Cell>, top: usize, at: usize) -> usize
    requires top { top ≤ length block.now.items }
    requires inside { at < length block.now.items }
    ensures { IsIndex block.now.items top at result }
{
    let seam = block.len() - top;
    if at < seam { top + at } else { at - seam }
}

// The place where the first cell stands, if that is behind the last one: at the start.
fn around(top: usize, count: usize) -> usize
    requires { top ≤ count }
    ensures same { (block : List Glyph) → length block ≡ count → turned block result ≡ turned block top }
    ensures inside { result ≤ count }
{
    if top == count { 0 } else { top }
}

// The place where the first cell stands once so many cells have become the last ones.
fn moved(top: usize, by: usize, count: usize) -> usize
    requires top { top ≤ count }
    requires few { by ≤ count }
    ensures same { (block : List Glyph) → length block ≡ count → turned block result ≡ turned (turned block top) by }
    ensures inside { result ≤ count }
{
    let seam = count - top;
    if by <= seam { top + by } else { by - seam }
}

fn lesser(a: usize, b: usize) -> usize
    ensures { result ≡ min a b }
{
    a.min(b)
}

// Writes a cell over the cells of a run.
fn fill_run(block: &mut Vec<Cell>, top: usize, from: usize, upto: usize, cell: Cell)
    requires { IsRun (length block.old.items) top from upto }
    ensures len { length block.new.items ≡ length block.old.items }
    ensures cells { turned block.new.items top ≡ filled (turned block.old.items top) from upto cell }
{
    let at = spot(block, top, from, upto);
    parts::fill(block, at, at + (upto - from), cell);
}

// Writes a cell over the cells from one place up to another.
#[tactic(auto, using(crate::proofs::RingLemmas::filled_in_two))]
fn fill(block: &mut Vec<Cell>, top: usize, from: usize, upto: usize, cell: Cell)
    requires top { top ≤ length block.old.items }
    requires order { from ≤ upto }
    requires inside { upto ≤ length block.old.items }
    ensures len { length block.new.items ≡ length block.old.items }
    ensures cells { turned block.new.items top ≡ filled (turned block.old.items top) from upto cell }
{
    let middle = from + front_count(block, top, from, upto - from);
    fill_run(block, top, from, middle, cell);
    fill_run(block, top, middle, upto, cell);
}

// Writes the cells that show the units in an attribute over a run.
fn units_run(block: &mut Vec<Cell>, top: usize, at: usize, units: &[u16], attr: Attr)
    requires { IsRun (length block.old.items) top at (at + length units.now) }
    ensures len { length block.new.items ≡ length block.old.items }
    ensures cells { turned block.new.items top ≡ units_put (turned block.old.items top) at units.now attr }
{
    let from = spot(block, top, at, at + units.len());
    parts::put_units(block, from, units, attr);
}

// Writes the cells that show units of printable ASCII in an attribute over a run.
fn plain_run(block: &mut Vec<Cell>, top: usize, at: usize, units: &[u16], attr: Attr)
    requires run { IsRun (length block.old.items) top at (at + length units.now) }
    requires plain { list_all is_plain units.now ≡ true }
    ensures len { length block.new.items ≡ length block.old.items }
    ensures cells { turned block.new.items top ≡ units_put (turned block.old.items top) at units.now attr }
{
    let from = spot(block, top, at, at + units.len());
    parts::put_plain(block, from, units, attr);
}

// Copies the cells of a run over as many others that are a run.
fn copy_run(block: &mut Vec<Cell>, top: usize, from: usize, to: usize, count: usize)
    requires source { IsRun (length block.old.items) top from (from + count) }
    requires target { IsRun (length block.old.items) top to (to + count) }
    ensures len { length block.new.items ≡ length block.old.items }
    ensures cells { turned block.new.items top ≡ copied (turned block.old.items top) from to count }
{
    if count == 0 {
        return;
    }
    let source = spot(block, top, from, from + count);
    let target = spot(block, top, to, to + count);
    block.copy_within(source..source + count, target);
}

// Copies so many cells from one place on to another that does not lie behind it.
#[tactic(auto, using(crate::proofs::RingLemmas::copied_up))]
fn copy_up(block: &mut Vec<Cell>, top: usize, from: usize, to: usize, count: usize)
    requires top { top ≤ length block.old.items }
    requires up { to ≤ from }
    requires inside { from + count ≤ length block.old.items }
    ensures len { length block.new.items ≡ length block.old.items }
    ensures cells { turned block.new.items top ≡ copied (turned block.old.items top) from to count }
{
    let first = front_count(block, top, from, count);
    let second = front_count(block, top, to, count);
    copy_run(block, top, from, to, first);
    copy_run(block, top, from + first, to + first, second - first);
    copy_run(block, top, from + second, to + second, count - second);
}

// Copies so many cells from one place on to another that does not lie in front of it.
#[tactic(auto, using(crate::proofs::RingLemmas::copied_down))]
fn copy_down(block: &mut Vec<Cell>, top: usize, from: usize, to: usize, count: usize)
    requires top { top ≤ length block.old.items }
    requires down { from ≤ to }
    requires inside { to + count ≤ length block.old.items }
    ensures len { length block.new.items ≡ length block.old.items }
    ensures cells { turned block.new.items top ≡ copied (turned block.old.items top) from to count }
{
    let first = front_count(block, top, to, count);
    let second = front_count(block, top, from, count);
    copy_run(block, top, from + second, to + second, count - second);
    copy_run(block, top, from + first, to + first, second - first);
    copy_run(block, top, from, to, first);
}

// Lifts the cells from one place up to another, which are most of them: another cell becomes the first, and those that stay
// are copied back to their places. Tells where the first cell stands.
#[tactic(auto, using(crate::proofs::RingLemmas::most_lifted))]
fn lift_most(
    block: &mut Vec<Cell>,
    top: usize,
    from: usize,
    upto: usize,
    by: usize,
    cell: Cell,
) -> usize
    requires top { top ≤ length block.old.items }
    requires few { from + by ≤ upto }
    requires inside { upto ≤ length block.old.items }
    ensures top { result ≤ length block.new.items }
    ensures cells { turned block.new.items result ≡ part_lifted (turned block.old.items top) from upto by cell }
{
    let count = block.len();
    copy_down(block, top, 0, by, from);
    let first = moved(top, by, count);
    copy_down(block, first, upto - by, upto, count - upto);
    fill(block, first, upto - by, upto, cell);
    first
}

// Lowers the cells from one place up to another, which are most of them: another cell becomes the first, and those that stay
// are copied back to their places. Tells where the first cell stands.
#[tactic(auto, using(crate::proofs::RingLemmas::most_lowered))]
fn lower_most(
    block: &mut Vec<Cell>,
    top: usize,
    from: usize,
    upto: usize,
    by: usize,
    cell: Cell,
) -> usize
    requires top { top ≤ length block.old.items }
    requires few { from + by ≤ upto }
    requires inside { upto ≤ length block.old.items }
    ensures top { result ≤ length block.new.items }
    ensures cells { turned block.new.items result ≡ part_lowered (turned block.old.items top) from upto by cell }
{
    let count = block.len();
    copy_up(block, top, upto, upto - by, count - upto);
    let first = moved(top, count - by, count);
    copy_up(block, first, by, 0, from);
    fill(block, first, from, from + by, cell);
    first
}

impl Ring {
    /// So many cells.
    pub fn new(alloc: Global, count: usize, cell: Cell) -> Result<Ring, OutOfMemory>
        ensures { IfOk result (λ r. r ≡ replicate count cell) }
    {
        let block = parts::repeated(alloc, count, cell)?;
        Ok(Ring { block, top: 0 })
    }

    /// The cells of a block.
    pub fn of(block: Vec<Cell>) -> Ring
        ensures { result ≡ block.items }
    {
        Ring { block, top: 0 }
    }

    /// The allocator of the block.
    pub fn allocator(&self) -> Global {
        *self.block.allocator()
    }

    /// The cell at a place.
    pub fn get(&self, at: usize) -> Cell
        requires { at < length self.now }
        ensures { slice_get self.now at ≡ Some result }
    {
        let at = index(&self.block, self.top, at);
        self.block[at]
    }

    /// Changes the cell at a place.
    pub fn put(&mut self, at: usize, cell: Cell)
        requires { at < length self.old }
        ensures { self.new ≡ slice_set self.old at cell }
    {
        let at = index(&self.block, self.top, at);
        self.block[at] = cell;
    }

    /// Writes a cell over the cells from one place up to another.
    pub fn fill(&mut self, from: usize, upto: usize, cell: Cell)
        requires order { from ≤ upto }
        requires inside { upto ≤ length self.old }
        ensures { self.new ≡ filled self.old from upto cell }
    {
        fill(&mut self.block, self.top, from, upto, cell);
    }

    /// Writes the cells that show the units in an attribute, from one place on.
    pub fn put_units(&mut self, at: usize, units: &[u16], attr: Attr)
        requires { at + length units.now ≤ length self.old }
        ensures { self.new ≡ units_put self.old at units.now attr }
    {
        let count = front_count(&self.block, self.top, at, units.len());
        units_run(&mut self.block, self.top, at, &units[..count], attr);
        units_run(&mut self.block, self.top, at + count, &units[count..], attr);
    }

    /// Writes the cells that show units of printable ASCII in an attribute, from one place on.
    pub fn put_plain(&mut self, at: usize, units: &[u16], attr: Attr)
        requires inside { at + length units.now ≤ length self.old }
        requires plain { list_all is_plain units.now ≡ true }
        ensures { self.new ≡ units_put self.old at units.now attr }
    {
        let count = front_count(&self.block, self.top, at, units.len());
        plain_run(&mut self.block, self.top, at, &units[..count], attr);
        plain_run(&mut self.block, self.top, at + count, &units[count..], attr);
    }

    /// Lifts the cells from one place up to another.
    pub fn lift_part(&mut self, from: usize, upto: usize, by: usize, cell: Cell)
        requires order { from ≤ upto }
        requires inside { upto ≤ length self.old }
        ensures { self.new ≡ part_lifted self.old from upto by cell }
    {
        let rest = self.block.len() - (upto - from);
        if rest == 0 {
            self.lift(by, cell);
            return;
        }
        let by = lesser(by, upto - from);
        if rest < upto - from {
            self.top = lift_most(&mut self.block, self.top, from, upto, by, cell);
            return;
        }
        copy_up(&mut self.block, self.top, from + by, from, upto - from - by);
        fill(&mut self.block, self.top, upto - by, upto, cell);
    }

    /// Lowers the cells from one place up to another.
    pub fn lower_part(&mut self, from: usize, upto: usize, by: usize, cell: Cell)
        requires order { from ≤ upto }
        requires inside { upto ≤ length self.old }
        ensures { self.new ≡ part_lowered self.old from upto by cell }
    {
        let rest = self.block.len() - (upto - from);
        if rest == 0 {
            self.lower(by, cell);
            return;
        }
        let by = lesser(by, upto - from);
        if rest < upto - from {
            self.top = lower_most(&mut self.block, self.top, from, upto, by, cell);
            return;
        }
        copy_down(&mut self.block, self.top, from, from + by, upto - from - by);
        fill(&mut self.block, self.top, from, from + by, cell);
    }

    /// Lifts all cells. The first ones become the last ones in their places; none else is touched.
    pub fn lift(&mut self, by: usize, cell: Cell)
        ensures { self.new ≡ lifted self.old by cell }
    {
        let count = self.block.len();
        let by = lesser(by, count);
        let seam = count - self.top;
        if by <= seam {
            let end = self.top + by;
            parts::fill(&mut self.block, self.top, end, cell);
            self.top = around(end, count);
        } else {
            let end = by - seam;
            parts::fill_ends(&mut self.block, self.top, end, cell);
            self.top = end;
        }
    }

    /// Lowers all cells. The last ones become the first ones in their places; none else is touched.
    pub fn lower(&mut self, by: usize, cell: Cell)
        ensures { self.new ≡ lowered self.old by cell }
    {
        let count = self.block.len();
        let by = lesser(by, count);
        if by <= self.top {
            let end = self.top - by;
            parts::fill(&mut self.block, end, self.top, cell);
            self.top = end;
        } else {
            let end = count - (by - self.top);
            parts::fill_ends(&mut self.block, end, self.top, cell);
            self.top = end;
        }
    }
}

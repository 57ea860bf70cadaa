//! The begin of a frame, which may lift the rows of a terminal.
ghost use Rattle.std.specs.Prelude.{◌≡◌, ◌+◌, ◌-◌, ◌*◌, ◌<◌, ◌≤◌, ℕ, true, false, not, ◌&&◌, ◌++◌};
ghost use Rattle.std.specs.Prelude.{length, take, drop, replicate, slice_index_or, if◌then◌else◌};
ghost use Rattle.std.specs.Vec.{vec_len, vec_capacity};
ghost use Rattle.con_units.specs.Attr.{plain};
ghost use Rattle.con_units.specs.Glyph.{blank_cell};
ghost use Rattle.con_units.specs.View.{row_of};
ghost use Rattle.con_term.specs.Page.{Page};
ghost use Rattle.con_strokes.specs.Ink.{pen_for};
ghost use Rattle.con_strokes.specs.Checksum.{IsSummed, AreSummed};
ghost use Rattle.con_strokes.specs.Compared.{same_cells, differing, IsLifted};
ghost use Rattle.con_paint.specs.Frame.{rows_to_paint};
ghost use Rattle.con_paint.specs.Lift.{IsLeastBelow, Lifted, Lifts, Rises, lifted_cells};
ghost use Rattle.con_strokes.specs.Spot.{IsAt};

use crate::rows::differs;
use con_strokes::cells::{blank, same};
use con_strokes::checksum::{Checksums, agree, renewed};
use con_strokes::emit::{ground, new_row, up};
use con_strokes::pen::{choose, plain_attr};
use con_strokes::spot::Spot;
use con_units::{Attr, Cell, Size};

/// What a lift leaves: the attribute of the pen, the cursor's place, whether the rows were lifted, and how many rows at most are
/// to be painted then.
#[derive(Clone, Copy)]
pub(crate) struct Lifting {
    pub(crate) attr: Attr,
    pub(crate) spot: Spot,
    pub(crate) lifted: bool,
    pub(crate) rows: u16,
}

// Whether the cells are the old ones, that many places on.
fn is_moved(cells: &[Cell], shadow: &[Cell], by: usize) -> bool
    requires { (by ≤ length shadow.now) × (length cells.now ≡ length shadow.now) }
    ensures { result ≡ same_cells (take (length cells.now - by) cells.now) (drop by shadow.now) }
{
    same(&cells[..cells.len() - by], &shadow[by..])
}

// Whether the rows are the old ones lifted by a count of rows. Cells are compared where the rows' checksums agree.
fn is_lifted(cells: &[Cell], shadow: &[Cell], sums: &[Checksums], by: u16, size: Size) -> bool
    requires few { (size.w ≤ 512) × (size.h ≤ 256) × (by ≤ size.h) }
    requires lengths { (length cells.now ≡ size.h * size.w) × (length shadow.now ≡ size.h * size.w) }
    requires summed { AreSummed true size.w size.h cells.now shadow.now sums.now }
    ensures is { result ≡ true → IsLifted size.w size.h by cells.now shadow.now }
    ensures not { result ≡ false → IsLifted size.w size.h by cells.now shadow.now → ⊥ }
{
    if !agree(sums, by as usize) {
        return false;
    }
    is_moved(cells, shadow, by as usize * size.w as usize)
}

// The least number of rows, below a number of them, by which the old ones are lifted, or that number.
fn least_lift(cells: &[Cell], shadow: &[Cell], sums: &[Checksums], rows: u16, size: Size) -> u16
    requires few { (size.w ≤ 512) × (size.h ≤ 256) × (0 < rows) × (rows ≤ size.h) }
    requires lengths { (length cells.now ≡ size.h * size.w) × (length shadow.now ≡ size.h * size.w) }
    requires summed { AreSummed true size.w size.h cells.now shadow.now sums.now }
    ensures { IsLeastBelow size.w size.h rows cells.now shadow.now result }
{
    for k in 1..rows {
        if is_lifted(cells, shadow, sums, k, size) {
            return k;
        }
    }
    rows
}

fn plus_if(count: u16, one: bool) -> u16
    requires { count < 1000 }
    ensures { result ≡ count + (if one then 1 else 0) }
{
    if one { count + 1 } else { count }
}

// How many rows are to be painted. Each gets its checksums.
fn count_rows(
    sums: &mut [Checksums],
    cells: &[Cell],
    shadow: &[Cell],
    marks: &[bool],
    known: bool,
    size: Size,
) -> u16
    requires few { (size.w ≤ 512) × (size.h ≤ 256) }
    requires lengths { (length cells.now ≡ size.h * size.w) × (length shadow.now ≡ size.h * size.w) × (length marks.now ≡ size.h) }
    requires marked { known ≡ true → (y : ℕ) → y < size.h → slice_index_or marks.now y false ≡ false → row_of size.w cells.now y ≡ row_of size.w shadow.now y }
    requires summed { IsSummed known size.w size.h shadow.now sums.old }
    ensures count { result ≡ rows_to_paint known size.w size.h cells.now shadow.now }
    ensures few { result ≤ size.h }
    ensures summed { AreSummed known size.w size.h cells.now shadow.now sums.new }
{
    let width = size.w as usize;
    let mut count = 0;
    for y in 0..size.h {
        let from = y as usize * width;
        let row = &cells[from..from + width];
        let was = &shadow[from..from + width];
        let differ = differs(known, marks[y as usize], row, was);
        sums[y as usize] = renewed(sums[y as usize], differ, row);
        count = plus_if(count, differ);
    }
    count
}

/// How many rows are to be painted: those that differ, or all where nothing is known. Each row gets its checksums.
pub(crate) fn count(
    sums: &mut Vec<Checksums>,
    cells: &[Cell],
    shadow: &[Cell],
    marks: &[bool],
    known: bool,
    size: Size,
) -> u16
    requires few { (size.w ≤ 512) × (size.h ≤ 256) }
    requires lengths { (length cells.now ≡ size.h * size.w) × (length shadow.now ≡ size.h * size.w) × (length marks.now ≡ size.h) }
    requires marked { known ≡ true → (y : ℕ) → y < size.h → slice_index_or marks.now y false ≡ false → row_of size.w cells.now y ≡ row_of size.w shadow.now y }
    requires summed { IsSummed known size.w size.h shadow.now sums.old.items }
    ensures count { result ≡ rows_to_paint known size.w size.h cells.now shadow.now }
    ensures few { result ≤ size.h }
    ensures summed { AreSummed known size.w size.h cells.now shadow.now sums.new.items }
{
    count_rows(sums.as_mut_slice(), cells, shadow, marks, known, size)
}

// Makes all cells blank.
fn empty(cells: &mut [Cell])
    ensures { cells.new ≡ replicate (length cells.old) blank_cell }
{
    let blank = blank();
    for i in 0..cells.len() {
        cells[i] = blank;
    }
}

// Makes the cells from a place on blank.
fn empty_from(cells: &mut [Cell], from: usize)
    requires { from ≤ length cells.old }
    ensures { cells.new ≡ take from cells.old ++ replicate (length cells.old - from) blank_cell }
{
    empty(&mut cells[from..]);
}

// Lifts the cells by a count of places, and makes the last ones blank.
fn raise(cells: &mut Vec<Cell>, count: usize)
    requires { count ≤ length cells.old.items }
    ensures { cells.new.items ≡ lifted_cells cells.old.items count }
{
    let rest = cells.len() - count;
    cells.copy_within(count.., 0);
    empty_from(cells.as_mut_slice(), rest);
}

// Lifts all rows, in a pen that is plain, and gives the cursor's place. From the last row a new one lifts them by one.
fn rise(out: &mut Vec<u8>, at: Spot, by: u16, size: Size) -> Spot
    requires few { (size.h ≤ 256) × (by ≤ size.h) × (0 < by) }
    requires room { vec_len out.old + 7 ≤ vec_capacity out.old }
    ensures rises { (s : Page) → s.h ≡ size.h → IsAt at s → Rises by result out.old.items out.new.items s }
    ensures capacity { vec_capacity out.new ≡ vec_capacity out.old }
    ensures few { vec_len out.new ≤ vec_len out.old + 7 }
{
    if by == 1 && at.known && at.y == size.h - 1 {
        new_row(out);
        return Spot {
            known: true,
            x: 0,
            y: at.y,
        };
    }
    up(out, by);
    at
}

// Lifts the rows of a terminal, and the cells, and gives the cursor's place.
fn scroll(
    out: &mut Vec<u8>,
    shadow: &mut Vec<Cell>,
    at: Spot,
    by: u16,
    size: Size,
    before: Attr,
) -> Spot
    requires few { (size.w ≤ 512) × (size.h ≤ 256) × (by ≤ size.h) × (0 < by) }
    requires cells { length shadow.old.items ≡ size.h * size.w }
    requires room { vec_len out.old + 50 ≤ vec_capacity out.old }
    ensures lifted { (s : Page) → s.w ≡ size.w → s.h ≡ size.h → s.x < s.w → s.pen ≡ pen_for before → IsAt at s
        → Lifted size.w (lifted_cells s.cells (by * size.w)) result (plain 7) out.old.items out.new.items s }
    ensures cells { shadow.new.items ≡ lifted_cells shadow.old.items (by * size.w) }
    ensures capacity { vec_capacity out.new ≡ vec_capacity out.old }
    ensures few { vec_len out.new ≤ vec_len out.old + 50 }
{
    choose(out, before, plain_attr());
    let after = rise(out, at, by, size);
    raise(shadow, by as usize * size.w as usize);
    after
}

// Nothing is lifted.
fn stay(attr: Attr, spot: Spot, rows: u16) -> Lifting
    ensures { result ≡ record { attr = attr; spot = spot; lifted = false; rows = rows } }
{
    Lifting {
        attr,
        spot,
        lifted: false,
        rows,
    }
}

// Lifts the rows of a terminal by the least that brings them to the view's, and the cells, where that saves some of so many.
fn lift_by_least(
    out: &mut Vec<u8>,
    shadow: &mut Vec<Cell>,
    cells: &[Cell],
    sums: &[Checksums],
    rows: u16,
    size: Size,
    at: Spot,
    before: Attr,
) -> Lifting
    requires few { (size.w ≤ 512) × (size.h ≤ 256) × (0 < rows) × (rows ≤ size.h) }
    requires lengths { (length cells.now ≡ size.h * size.w) × (length shadow.old.items ≡ size.h * size.w) }
    requires rows { rows ≡ differing size.w size.h cells.now shadow.old.items }
    requires summed { AreSummed true size.w size.h cells.now shadow.old.items sums.now }
    requires room { vec_len out.old + 50 ≤ vec_capacity out.old }
    ensures lifts { Lifts size.w size.h true cells.now shadow.old.items shadow.new.items at result.spot before result.attr result.lifted result.rows
        out.old.items out.new.items }
    ensures capacity { vec_capacity out.new ≡ vec_capacity out.old }
    ensures few { vec_len out.new ≤ vec_len out.old + 50 }
{
    let least = least_lift(cells, shadow.as_slice(), sums, rows, size);
    if rows <= least {
        return stay(before, at, rows);
    }
    let spot = scroll(out, shadow, at, least, size, before);
    Lifting {
        attr: plain_attr(),
        spot,
        lifted: true,
        rows: least,
    }
}

/// Lifts the rows of a terminal, and the cells, where that saves rows of those that differ.
fn lift_if(
    out: &mut Vec<u8>,
    shadow: &mut Vec<Cell>,
    cells: &[Cell],
    sums: &[Checksums],
    rows: u16,
    size: Size,
    at: Spot,
    before: Attr,
) -> Lifting
    requires few { (size.w ≤ 512) × (size.h ≤ 256) × (rows ≤ size.h) }
    requires lengths { (length cells.now ≡ size.h * size.w) × (length shadow.old.items ≡ size.h * size.w) }
    requires rows { rows ≡ differing size.w size.h cells.now shadow.old.items }
    requires summed { AreSummed true size.w size.h cells.now shadow.old.items sums.now }
    requires room { vec_len out.old + 50 ≤ vec_capacity out.old }
    ensures lifts { Lifts size.w size.h true cells.now shadow.old.items shadow.new.items at result.spot before result.attr result.lifted result.rows
        out.old.items out.new.items }
    ensures capacity { vec_capacity out.new ≡ vec_capacity out.old }
    ensures few { vec_len out.new ≤ vec_len out.old + 50 }
{
    if rows < 2 {
        stay(before, at, rows)
    } else {
        lift_by_least(out, shadow, cells, sums, rows, size, at, before)
    }
}

/// Begins a frame of which so many rows are to be painted: a terminal that nothing is known of is brought to known ground;
/// the rows of another, whose cursor stands at a spot, if that is known, are lifted, and the cells, where that saves rows.
pub(crate) fn begin(
    out: &mut Vec<u8>,
    shadow: &mut Vec<Cell>,
    cells: &[Cell],
    sums: &[Checksums],
    rows: u16,
    known: bool,
    size: Size,
    at: Spot,
    before: Attr,
) -> Lifting
    requires few { (size.w ≤ 512) × (size.h ≤ 256) × (rows ≤ size.h) }
    requires lengths { (length cells.now ≡ size.h * size.w) × (length shadow.old.items ≡ size.h * size.w) }
    requires rows { rows ≡ rows_to_paint known size.w size.h cells.now shadow.old.items }
    requires summed { AreSummed known size.w size.h cells.now shadow.old.items sums.now }
    requires room { vec_len out.old + 53 ≤ vec_capacity out.old }
    ensures lifts { Lifts size.w size.h known cells.now shadow.old.items shadow.new.items at result.spot before result.attr result.lifted result.rows
        out.old.items out.new.items }
    ensures capacity { vec_capacity out.new ≡ vec_capacity out.old }
    ensures few { vec_len out.new ≤ vec_len out.old + 53 }
{
    if known {
        lift_if(out, shadow, cells, sums, rows, size, at, before)
    } else {
        ground(out);
        stay(plain_attr(), at, size.h)
    }
}

//! Rows, one after another.
ghost use Rattle.std.specs.Prelude.{◌≡◌, ◌+◌, ◌-◌, ◌*◌, ◌<◌, ◌≤◌, ◌==◌, ℕ, true, false, not, ◌&&◌, ◌||◌, length, drop, replicate, slice_index_or};
ghost use Rattle.std.specs.Vec.{vec_len, vec_capacity};
ghost use Rattle.con_units.specs.Glyph.{blank_cell};
ghost use Rattle.con_units.specs.View.{row_of};
ghost use Rattle.con_strokes.specs.Compared.{same_cells};
ghost use Rattle.con_paint.specs.Frame.{rows_to_paint, Rows, RowStep};
ghost use Rattle.con_paint.specs.Rest.{RestStep};

use crate::span::{line, span_of};
use con_strokes::cells::{blank, is_same, same};
use con_strokes::emit::erase_rest;
use con_strokes::pen::{choose, plain_attr};
use con_strokes::spot::{Spot, State, go};
use con_units::{Cell, Size};

/// Whether a row has to be painted: all where nothing is known, else those that are marked and differ.
pub(crate) fn differs(known: bool, marked: bool, row: &[Cell], was: &[Cell]) -> bool
    requires { length row.now ≡ length was.now }
    ensures { result ≡ (not known || (marked && not (same_cells row.now was.now))) }
{
    !known || (marked && !same(row, was))
}

/// Whether a row may differ: behind a lift each from the first one on that is new, else each with a mark.
pub(crate) fn may_differ(lifted: bool, first: u16, y: u16, marked: bool) -> bool
    ensures behind { lifted ≡ true → result ≡ false → y < first }
    ensures marked { lifted ≡ false → result ≡ marked }
{
    if lifted { first <= y } else { marked }
}

// The column of a row to which the cursor is brought at the frame's end, or 0.
fn aim_in(caret: Spot, y: u16) -> usize {
    if caret.known && caret.y == y {
        caret.x as usize
    } else {
        0
    }
}

// Paints a row, where it is to be.
fn one_row(
    out: &mut Vec<u8>,
    known: bool,
    paint: bool,
    y: u16,
    row: &[Cell],
    was: &[Cell],
    caret: Spot,
    before: State,
) -> State
    requires small { (y < 999) × (0 < length row.now) × (length row.now ≤ 512) }
    requires lengths { length row.now ≡ length was.now }
    requires room { vec_len out.old + 11 + 57 * length row.now ≤ vec_capacity out.old }
    ensures step { RowStep paint known y row.now was.now before out.old.items out.new.items result }
    ensures capacity { vec_capacity out.new ≡ vec_capacity out.old }
    ensures few { vec_len out.new ≤ vec_len out.old + 11 + 57 * length row.now }
{
    if !paint {
        return before;
    }
    let span = span_of(known, row, was, aim_in(caret, y));
    line(out, known, y, row, was, span, before)
}

// Paints those of the first rows that differ, and gives what is known then.
fn first_rows(
    out: &mut Vec<u8>,
    cells: &[Cell],
    shadow: &[Cell],
    marks: &[bool],
    lifted: bool,
    first: u16,
    known: bool,
    size: Size,
    tail: u16,
    caret: Spot,
    before: State,
) -> State
    requires few { (0 < size.w) × (size.w ≤ 512) × (size.h ≤ 256) × (tail ≤ size.h) }
    requires lengths { (length cells.now ≡ size.h * size.w) × (length shadow.now ≡ size.h * size.w) × (length marks.now ≡ size.h) }
    requires marked { known ≡ true → lifted ≡ false → (y : ℕ) → y < size.h → slice_index_or marks.now y false ≡ false
        → row_of size.w cells.now y ≡ row_of size.w shadow.now y }
    requires lifted { known ≡ true → lifted ≡ true → (y : ℕ) → y < first → row_of size.w cells.now y ≡ row_of size.w shadow.now y }
    requires room { vec_len out.old + size.h * (11 + 57 * size.w) ≤ vec_capacity out.old }
    ensures rows { Rows size.w size.h cells.now shadow.now known before out.old.items out.new.items tail result }
    ensures capacity { vec_capacity out.new ≡ vec_capacity out.old }
    ensures few { vec_len out.new ≤ vec_len out.old + size.h * (11 + 57 * size.w) }
{
    let width = size.w as usize;
    let mut state = before;
    for y in 0..tail {
        let from = y as usize * width;
        let row = &cells[from..from + width];
        let was = &shadow[from..from + width];
        let marked = may_differ(lifted, first, y, marks[y as usize]);
        let paint = differs(known, marked, row, was);
        state = one_row(out, known, paint, y, row, was, caret, state);
    }
    state
}

// Whether all cells of a row are blank.
fn is_blank(row: &[Cell]) -> bool
    ensures { result ≡ true → row.now ≡ replicate (length row.now) blank_cell }
{
    let blank = blank();
    for i in 0..row.len() {
        if !is_same(&row[i], &blank) {
            return false;
        }
    }
    true
}

// Whether a row becomes blank.
fn is_emptied(known: bool, row: &[Cell], was: &[Cell]) -> bool
    requires { length row.now ≡ length was.now }
    ensures blank { result ≡ true → row.now ≡ replicate (length row.now) blank_cell }
    ensures differs { result ≡ true → known ≡ true → same_cells row.now was.now ≡ false }
{
    is_blank(row) && (!known || !same(row, was))
}

// The first row from which on all rows become blank.
fn emptied_from(cells: &[Cell], shadow: &[Cell], known: bool, size: Size) -> u16
    requires few { (size.w ≤ 512) × (size.h ≤ 256) }
    requires lengths { (length cells.now ≡ size.h * size.w) × (length shadow.now ≡ size.h * size.w) }
    ensures inside { result ≤ size.h }
    ensures blank { drop (result * size.w) cells.now ≡ replicate ((size.h - result) * size.w) blank_cell }
    ensures differ { rows_to_paint known size.w size.h cells.now shadow.now ≡ rows_to_paint known size.w result cells.now shadow.now + (size.h - result) }
{
    let width = size.w as usize;
    for k in 0..size.h {
        let y = size.h - 1 - k;
        let from = y as usize * width;
        let row = &cells[from..from + width];
        let was = &shadow[from..from + width];
        if !is_emptied(known, row, was) {
            return y + 1;
        }
    }
    0
}

/// The first row from which on one sequence erases all, where that saves some of those that are to be painted.
pub(crate) fn tail_of(cells: &[Cell], shadow: &[Cell], known: bool, size: Size, rows: u16) -> u16
    requires few { (size.w ≤ 512) × (size.h ≤ 256) }
    requires lengths { (length cells.now ≡ size.h * size.w) × (length shadow.now ≡ size.h * size.w) }
    ensures inside { result ≤ size.h }
    ensures blank { drop (result * size.w) cells.now ≡ replicate ((size.h - result) * size.w) blank_cell }
    ensures differ { rows_to_paint known size.w size.h cells.now shadow.now ≡ rows_to_paint known size.w result cells.now shadow.now + (size.h - result) }
{
    if rows < 2 {
        return size.h;
    }
    let tail = emptied_from(cells, shadow, known, size);
    if size.h - tail < 2 { size.h } else { tail }
}

// Erases the last rows.
fn rest(out: &mut Vec<u8>, tail: u16, size: Size, before: State) -> State
    requires few { (0 < size.w) × (size.h ≤ 256) }
    requires room { vec_len out.old + 57 ≤ vec_capacity out.old }
    ensures rest { RestStep size.w size.h tail before out.old.items out.new.items result }
    ensures capacity { vec_capacity out.new ≡ vec_capacity out.old }
    ensures few { vec_len out.new ≤ vec_len out.old + 57 }
{
    if size.h <= tail {
        return before;
    }
    go(out, before.spot, 0, tail);
    let attr = plain_attr();
    choose(out, before.attr, attr);
    erase_rest(out);
    let spot = Spot {
        known: true,
        x: 0,
        y: tail,
    };
    State { attr, spot }
}

/// Whether the cursor goes through more than one row, where one sequence erases the last ones.
pub(crate) fn is_many(rows: u16, last: u16) -> bool
    ensures quiet { rows ≡ 0 → result ≡ false }
{
    if last == 0 { 1 < rows } else { last < rows }
}

/// Paints the rows that differ up to the tail, and erases the rest, where the cursor is brought to a caret at the frame's
/// end, if that is known. It gives what is known then.
pub(crate) fn rows(
    out: &mut Vec<u8>,
    cells: &[Cell],
    shadow: &[Cell],
    marks: &[bool],
    lifted: bool,
    first: u16,
    known: bool,
    size: Size,
    tail: u16,
    caret: Spot,
    before: State,
) -> State
    requires few { (0 < size.w) × (size.w ≤ 512) × (size.h ≤ 256) }
    requires inside { tail ≤ size.h }
    requires blank { drop (tail * size.w) cells.now ≡ replicate ((size.h - tail) * size.w) blank_cell }
    requires differ { rows_to_paint known size.w size.h cells.now shadow.now ≡ rows_to_paint known size.w tail cells.now shadow.now + (size.h - tail) }
    requires lengths { (length cells.now ≡ size.h * size.w) × (length shadow.now ≡ size.h * size.w) × (length marks.now ≡ size.h) }
    requires marked { known ≡ true → lifted ≡ false → (y : ℕ) → y < size.h → slice_index_or marks.now y false ≡ false
        → row_of size.w cells.now y ≡ row_of size.w shadow.now y }
    requires lifted { known ≡ true → lifted ≡ true → (y : ℕ) → y < first → row_of size.w cells.now y ≡ row_of size.w shadow.now y }
    requires room { vec_len out.old + 57 + size.h * (11 + 57 * size.w) ≤ vec_capacity out.old }
    ensures rows { Rows size.w size.h cells.now shadow.now known before out.old.items out.new.items size.h result }
    ensures capacity { vec_capacity out.new ≡ vec_capacity out.old }
    ensures few { vec_len out.new ≤ vec_len out.old + 57 + size.h * (11 + 57 * size.w) }
{
    let above = first_rows(
        out, cells, shadow, marks, lifted, first, known, size, tail, caret, before,
    );
    rest(out, tail, size, above)
}

//! The part of a row that is written: from the first cell that differs to the last one, or to the blanks at the row's end.
ghost use Rattle.std.specs.Prelude.{◌≡◌, ◌+◌, ◌-◌, ◌*◌, ◌<◌, ◌≤◌, ℕ, List, true, false, length, take, drop, replicate};
ghost use Rattle.std.specs.Vec.{vec_len, vec_capacity};
ghost use Rattle.con_units.specs.Glyph.{Glyph, blank_cell};
ghost use Rattle.con_units.specs.View.{row_of};
ghost use Rattle.con_term.specs.Page.{Page};
ghost use Rattle.con_paint.specs.Frame.{Stands, Painted};
ghost use Rattle.con_paint.specs.Span as spans;
ghost use Rattle.con_strokes.specs.Spot.{IsAt};

use crate::columns::columns;
use con_strokes::cells::{blank, is_same, is_same_attr};
use con_strokes::emit::erase_row;
use con_strokes::pen::{choose, plain_attr};
use con_strokes::spot::{Spot, State, go};
use con_units::{Attr, Cell};

/// The columns of a row that are printed, and whether those behind them are erased.
#[derive(Clone, Copy)]
pub struct Span {
    pub from: usize,
    pub upto: usize,
    pub erase: bool,
}

// The first column in which two rows differ, or the last one where there is none.
fn first_difference(row: &[Cell], was: &[Cell]) -> usize
    requires lengths { length row.now ≡ length was.now }
    requires some { 0 < length row.now }
    ensures same { take result row.now ≡ take result was.now }
    ensures inside { result < length row.now }
{
    let last = row.len() - 1;
    for i in 0..last {
        if !is_same(&row[i], &was[i]) {
            return i;
        }
    }
    last
}

// The column behind the last one from there on in which two rows differ.
fn end_of_differences(row: &[Cell], was: &[Cell], from: usize) -> usize
    requires lengths { length row.now ≡ length was.now }
    requires inside { from ≤ length row.now }
    ensures same { drop result row.now ≡ drop result was.now }
    ensures inside { (from ≤ result) × (result ≤ length row.now) }
{
    let count = row.len() - from;
    for k in 0..count {
        let i = row.len() - 1 - k;
        if !is_same(&row[i], &was[i]) {
            return i + 1;
        }
    }
    from
}

// The column from there on behind which all is blank.
fn end_of_text(row: &[Cell], from: usize) -> usize
    requires inside { from ≤ length row.now }
    ensures blank { drop result row.now ≡ replicate (length row.now - result) blank_cell }
    ensures inside { (from ≤ result) × (result ≤ length row.now) }
{
    let blank = blank();
    let count = row.len() - from;
    for k in 0..count {
        let i = row.len() - 1 - k;
        if !is_same(&row[i], &blank) {
            return i + 1;
        }
    }
    from
}

// Whether a cell is printed by one byte in the pen of an attribute.
fn is_short(cell: Cell, attr: Attr) -> bool {
    matches!(cell.unit(), 0x20..=0x7E) && is_same_attr(cell.attr(), attr)
}

// Whether the cells from a column up to another cost no more than a move there, behind the cell before the first of them.
fn is_step(row: &[Cell], from: usize, upto: usize) -> bool
    requires { (from ≤ length row.now) × (length row.now ≤ 512) }
    ensures { result ≡ true → (from ≤ upto) × (upto ≤ length row.now) }
{
    if from == 0 || upto <= from || row.len() < upto || from + 3 < upto {
        return false;
    }
    let attr = row[from - 1].attr();
    for x in from..upto {
        if !is_short(row[x], attr) {
            return false;
        }
    }
    true
}

// A column, or one behind it to which the cursor is brought at the frame's end, where the cells up to that one cost no more than a move.
fn moved_on(row: &[Cell], column: usize, aim: usize) -> usize
    requires { (column ≤ length row.now) × (length row.now ≤ 512) }
    ensures inside { (column ≤ result) × (result ≤ length row.now) }
{
    if is_step(row, column, aim) {
        aim
    } else {
        column
    }
}

// Where the columns begin: at the row's first one, where nothing is known.
fn begin(known: bool, row: &[Cell], was: &[Cell]) -> usize
    requires lengths { length row.now ≡ length was.now }
    requires some { 0 < length row.now }
    ensures same { known ≡ true → take result row.now ≡ take result was.now }
    ensures none { known ≡ false → result ≡ 0 }
    ensures inside { result < length row.now }
{
    if known { first_difference(row, was) } else { 0 }
}

// Where the columns end: behind the row's last one, where nothing is known.
fn end(known: bool, row: &[Cell], was: &[Cell], from: usize, aim: usize) -> usize
    requires lengths { length row.now ≡ length was.now }
    requires inside { (from ≤ length row.now) × (length row.now ≤ 512) }
    ensures same { known ≡ true → drop result row.now ≡ drop result was.now }
    ensures whole { known ≡ false → result ≡ length row.now }
    ensures inside { (from ≤ result) × (result ≤ length row.now) }
{
    if known {
        moved_on(row, end_of_differences(row, was, from), aim)
    } else {
        row.len()
    }
}

// The column from there on behind which all is blank, or one behind it to which the cursor is brought.
fn text_end(row: &[Cell], from: usize, aim: usize) -> usize
    requires inside { (from ≤ length row.now) × (length row.now ≤ 512) }
    ensures blank { drop result row.now ≡ replicate (length row.now - result) blank_cell }
    ensures inside { (from ≤ result) × (result ≤ length row.now) }
{
    moved_on(row, end_of_text(row, from), aim)
}

/// The part of a row to write, where the cursor is brought to a column at the frame's end, or to none: 0.
pub(crate) fn span_of(known: bool, row: &[Cell], was: &[Cell], aim: usize) -> Span
    requires lengths { length row.now ≡ length was.now }
    requires some { (0 < length row.now) × (length row.now ≤ 512) }
    ensures inside { spans.IsSpan row.now result }
    ensures front { (now : List Glyph) → length now ≡ length row.now → (known ≡ true → now ≡ was.now) → take result.from row.now ≡ take result.from now }
    ensures whole { (now : List Glyph) → length now ≡ length row.now → (known ≡ true → now ≡ was.now) → spans.patched now row.now result ≡ row.now }
{
    let from = begin(known, row, was);
    let end = end(known, row, was, from, aim);
    let text = text_end(row, from, aim);
    if text < end && 3 < end - text {
        Span {
            from,
            upto: text,
            erase: true,
        }
    } else {
        Span {
            from,
            upto: end,
            erase: false,
        }
    }
}

// Erases the end of row y from a column on, in the starting pen, where it is to be, and gives what is known then.
fn erase_if(out: &mut Vec<u8>, erase: bool, x: u16, y: u16, before: State) -> State
    requires small { (x < 999) × (y < 999) }
    requires room { erase ≡ true → vec_len out.old + 57 ≤ vec_capacity out.old }
    ensures end { spans.RowEnd erase x y before result out.old.items out.new.items }
    ensures capacity { vec_capacity out.new ≡ vec_capacity out.old }
    ensures same { erase ≡ false → vec_len out.new ≤ vec_len out.old }
    ensures few { vec_len out.new ≤ vec_len out.old + 57 }
{
    if !erase {
        return before;
    }
    go(out, before.spot, x, y);
    let attr = plain_attr();
    choose(out, before.attr, attr);
    erase_row(out);
    let spot = Spot { known: true, x, y };
    State { attr, spot }
}

/// Writes a part of row y, which makes it the whole row, and gives what is known then.
pub(crate) fn line(
    out: &mut Vec<u8>,
    known: bool,
    y: u16,
    row: &[Cell],
    was: &[Cell],
    span: Span,
    before: State,
) -> State
    requires small { (y < 999) × (length row.now ≤ 512) }
    requires lengths { length row.now ≡ length was.now }
    requires inside { spans.IsSpan row.now span }
    requires room { vec_len out.old + 11 + 57 * length row.now ≤ vec_capacity out.old }
    ensures painted { (h : ℕ) (s : Page) → Stands (length row.now) h before.attr s → IsAt before.spot s → y < h
        → (known ≡ true → row_of (length row.now) s.cells y ≡ was.now) → take span.from row.now ≡ take span.from (row_of (length row.now) s.cells y)
        → spans.patched (row_of (length row.now) s.cells y) row.now span ≡ row.now → Painted (length row.now) h y result row.now out.old.items out.new.items s }
    ensures capacity { vec_capacity out.new ≡ vec_capacity out.old }
    ensures few { vec_len out.new ≤ vec_len out.old + 11 + 57 * length row.now }
{
    let state = columns(out, known, y, row, was, span.from, span.upto, before);
    erase_if(out, span.erase, span.upto as u16, y, state)
}

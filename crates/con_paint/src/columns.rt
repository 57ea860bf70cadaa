//! The columns of a row: each cell is printed, or gone over where it stands there already.
ghost use Rattle.std.specs.Prelude.{◌≡◌, ◌+◌, ◌-◌, ◌*◌, ◌<◌, ◌≤◌, true, false, length, take, drop, replicate};
ghost use Rattle.std.specs.Vec.{vec_len, vec_capacity};
ghost use Rattle.con_units.specs.Glyph.{blank_cell};
ghost use Rattle.con_paint.specs.Columns.{ColumnStep, FirstColumns, IsSameAt, MoreColumns, RunStep};

use con_strokes::cells::{blank, cell, is_same, same};
use con_strokes::emit::erase_some;
use con_strokes::pen::{choose, plain_attr};
use con_strokes::spot::{Spot, State, go, spot_behind};
use con_units::Cell;

// Whether the cursor stands there, as far as it is known.
fn is_here(spot: Spot, x: usize, y: u16) -> bool {
    spot.known && spot.y == y && spot.x as usize == x
}

// Whether the cells of the next columns stand there already, more of them than the bytes of a move.
fn is_long(row: &[Cell], was: &[Cell], x: usize, upto: usize) -> bool
    requires lengths { length row.now ≡ length was.now }
    requires inside { (x < length row.now) × (upto ≤ length row.now) × (length row.now ≤ 512) }
{
    if upto < x + 5 {
        return false;
    }
    same(&row[x..x + 5], &was[x..x + 5])
}

// Whether a move to a column behind this one costs less than the cells up to it.
fn is_far(row: &[Cell], was: &[Cell], x: usize, upto: usize, spot: Spot, y: u16) -> bool
    requires lengths { length row.now ≡ length was.now }
    requires inside { (x < length row.now) × (upto ≤ length row.now) × (length row.now ≤ 512) }
{
    !is_here(spot, x, y) || is_long(row, was, x, upto)
}

// Whether a cell is gone over: where it is known to stand there, and the cursor has to move anyway or goes over some more.
fn is_kept(
    known: bool,
    row: &[Cell],
    was: &[Cell],
    x: usize,
    upto: usize,
    spot: Spot,
    y: u16,
) -> bool
    requires lengths { length row.now ≡ length was.now }
    requires inside { (x < length row.now) × (upto ≤ length row.now) × (length row.now ≤ 512) }
    ensures known { result ≡ true → known ≡ true }
    ensures same { result ≡ true → IsSameAt row.now was.now x }
{
    if !known {
        return false;
    }
    let now = &row[x];
    let old = &was[x];
    is_same(now, old) && is_far(row, was, x, upto, spot, y)
}

// Prints a cell in a column, where it is not kept, and gives what is known then.
fn column(
    out: &mut Vec<u8>,
    kept: bool,
    x: u16,
    y: u16,
    width: usize,
    one: Cell,
    before: State,
) -> State
    requires small { (y < 999) × (x < width) × (width ≤ 512) }
    requires room { vec_len out.old + 57 ≤ vec_capacity out.old }
    ensures step { ColumnStep kept width y x one before out.old.items out.new.items result }
    ensures capacity { vec_capacity out.new ≡ vec_capacity out.old }
    ensures few { vec_len out.new ≤ vec_len out.old + 57 }
{
    if kept {
        return before;
    }
    go(out, before.spot, x, y);
    let unit = one.unit();
    let attr = one.attr();
    cell(out, unit, attr, before.attr);
    let spot = spot_behind(unit, x, width, y);
    State { attr, spot }
}

/// What is known behind some columns of a row, and how many these are.
#[derive(Clone, Copy)]
pub struct Reached {
    pub columns: usize,
    pub state: State,
}

// How many cells are blank from a column on, up to another one.
fn blanks_from(row: &[Cell], x: usize, upto: usize) -> usize
    requires { (x ≤ upto) × (upto ≤ length row.now) }
    ensures blank { take result (drop x row.now) ≡ replicate result blank_cell }
    ensures inside { x + result ≤ upto }
{
    let blank = blank();
    for n in 0..upto - x {
        if !is_same(&row[x + n], &blank) {
            return n;
        }
    }
    upto - x
}

// How many cells are erased from a column on that is not kept: blanks, where they are more than the bytes of that and of the
// move behind them.
fn erased_from(kept: bool, row: &[Cell], x: usize, upto: usize) -> usize
    requires { (x ≤ upto) × (upto ≤ length row.now) × (length row.now ≤ 512) }
    ensures blank { take result (drop x row.now) ≡ replicate result blank_cell }
    ensures inside { x + result ≤ upto }
{
    if kept || upto < x + 6 {
        return 0;
    }
    if row[x + 5].unit() != 0x20 {
        return 0;
    }
    let count = blanks_from(row, x, upto);
    if x + count == upto || 10 < count {
        count
    } else {
        0
    }
}

// Erases cells from a column on, and gives what is known then.
fn run(out: &mut Vec<u8>, x: u16, y: u16, count: u16, width: usize, before: State) -> State
    requires small { (y < 999) × (x + count ≤ width) × (width ≤ 512) × (0 < count) }
    requires room { vec_len out.old + 61 ≤ vec_capacity out.old }
    ensures step { RunStep width y x count before out.old.items out.new.items result }
    ensures capacity { vec_capacity out.new ≡ vec_capacity out.old }
    ensures few { vec_len out.new ≤ vec_len out.old + 61 }
{
    go(out, before.spot, x, y);
    let attr = plain_attr();
    choose(out, before.attr, attr);
    erase_some(out, count);
    State {
        attr,
        spot: Spot { known: true, x, y },
    }
}

// Makes the next columns of row y those of a row, behind those that are done: some that are blank, or one.
fn piece(
    out: &mut Vec<u8>,
    known: bool,
    y: u16,
    row: &[Cell],
    was: &[Cell],
    done: usize,
    upto: usize,
    before: State,
) -> Reached
    requires small { (y < 999) × (length row.now ≤ 512) }
    requires lengths { length row.now ≡ length was.now }
    requires inside { (done < upto) × (upto ≤ length row.now) }
    requires room { vec_len out.old + 57 * (upto - done) ≤ vec_capacity out.old }
    ensures more { MoreColumns known row.now was.now y done result.columns before out.old.items out.new.items result.state }
    ensures inside { (done < result.columns) × (result.columns ≤ upto) }
    ensures capacity { vec_capacity out.new ≡ vec_capacity out.old }
    ensures few { vec_len out.new ≤ vec_len out.old + 57 * (result.columns - done) }
{
    let kept = is_kept(known, row, was, done, upto, before.spot, y);
    let count = erased_from(kept, row, done, upto);
    if count < 2 {
        let one = row[done];
        let state = column(out, kept, done as u16, y, row.len(), one, before);
        return Reached {
            columns: done + 1,
            state,
        };
    }
    let state = run(out, done as u16, y, count as u16, row.len(), before);
    Reached {
        columns: done + count,
        state,
    }
}

// The same, where no more are done than come before a column.
fn advance(
    out: &mut Vec<u8>,
    known: bool,
    y: u16,
    row: &[Cell],
    was: &[Cell],
    x: usize,
    upto: usize,
    before: Reached,
) -> Reached
    requires small { (y < 999) × (length row.now ≤ 512) }
    requires lengths { length row.now ≡ length was.now }
    requires inside { (x < upto) × (x ≤ before.columns) × (before.columns ≤ upto) × (upto ≤ length row.now) }
    requires room { vec_len out.old + 57 * (upto - before.columns) ≤ vec_capacity out.old }
    ensures more { MoreColumns known row.now was.now y before.columns result.columns before.state out.old.items out.new.items result.state }
    ensures inside { (x < result.columns) × (before.columns ≤ result.columns) × (result.columns ≤ upto) }
    ensures capacity { vec_capacity out.new ≡ vec_capacity out.old }
    ensures few { vec_len out.new ≤ vec_len out.old + 57 * (result.columns - before.columns) }
{
    let done = before.columns;
    if x < done {
        return before;
    }
    piece(out, known, y, row, was, done, upto, before.state)
}

/// Makes columns of row y those of a row, and gives what is known then.
pub(crate) fn columns(
    out: &mut Vec<u8>,
    known: bool,
    y: u16,
    row: &[Cell],
    was: &[Cell],
    from: usize,
    upto: usize,
    before: State,
) -> State
    requires small { (y < 999) × (length row.now ≤ 512) }
    requires lengths { length row.now ≡ length was.now }
    requires inside { (from ≤ upto) × (upto ≤ length row.now) }
    requires room { vec_len out.old + 57 * (upto - from) ≤ vec_capacity out.old }
    ensures columns { FirstColumns known row.now was.now y from upto before out.old.items out.new.items result }
    ensures capacity { vec_capacity out.new ≡ vec_capacity out.old }
    ensures few { vec_len out.new ≤ vec_len out.old + 57 * (upto - from) }
{
    let mut reached = Reached {
        columns: from,
        state: before,
    };
    for x in from..upto {
        reached = advance(out, known, y, row, was, x, upto, reached);
    }
    reached.state
}

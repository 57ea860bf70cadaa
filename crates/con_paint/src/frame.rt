//! The part of a frame behind its begin: the rows, and the cursor.
ghost use Rattle.std.specs.Prelude.{◌≡◌, ◌+◌, ◌-◌, ◌*◌, ◌<◌, ◌≤◌, ℕ, true, false, length, slice_index_or, if◌then◌else◌};
ghost use Rattle.std.specs.Vec.{vec_len, vec_capacity};
ghost use Rattle.con_units.specs.View.{row_of};
ghost use Rattle.con_units.specs.Words.View.{IsWhole};
ghost use Rattle.con_term.specs.Page.{Page};
ghost use Rattle.con_strokes.specs.Leads.{Leads};
ghost use Rattle.con_paint.specs.Frame.{rows_to_paint, Stands};
ghost use Rattle.con_paint.specs.Drawn.{Drawn};
ghost use Rattle.con_paint.specs.Placed.{Placed, IsCaret};
ghost use Rattle.con_strokes.specs.Spot.{IsAt};

use crate::lift::Lifting;
use crate::rows::{is_many, rows, tail_of};
use con_strokes::emit::show;
use con_strokes::spot::{Spot, State, go};
use con_units::{Cell, Size, View, index_of};

/// A cursor, counted from 0.
#[derive(Clone, Copy)]
pub struct Caret {
    pub x: u16,
    pub y: u16,
    pub visible: bool,
}

/// The cursor of a view.
pub(crate) fn caret_of(view: &View) -> Caret
    requires view { IsWhole view.now }
    requires few { (view.now.size.w ≤ 512) × (view.now.size.h ≤ 256) }
    ensures { IsCaret view.now result }
{
    if view.visible {
        Caret {
            x: index_of(view.cursor.x) as u16,
            y: index_of(view.cursor.y) as u16,
            visible: true,
        }
    } else {
        Caret {
            x: 0,
            y: 0,
            visible: false,
        }
    }
}

// Where the cursor is brought at the end, if it shows.
fn aim_of(caret: Caret) -> Spot {
    Spot {
        known: caret.visible,
        x: caret.x,
        y: caret.y,
    }
}

// Brings the cursor to its place, where it shows, and gives its place.
fn settle(out: &mut Vec<u8>, spot: Spot, caret: Caret) -> Spot
    requires small { (caret.x < 999) × (caret.y < 999) }
    requires room { vec_len out.old + 11 ≤ vec_capacity out.old }
    ensures leads { (s : Page) → (caret.visible ≡ true → (caret.x < s.w) × (caret.y < s.h)) → IsAt spot s
        → Leads out.old.items out.new.items s (if caret.visible then record s { x = caret.x; y = caret.y; pending = false } else s) 0 }
    ensures spot { result ≡ (if caret.visible then record { known = true; x = caret.x; y = caret.y } else spot) }
    ensures quiet { (caret.visible ≡ true → (spot.known ≡ true) × (spot.x ≡ caret.x) × (spot.y ≡ caret.y)) → out.new.items ≡ out.old.items }
    ensures capacity { vec_capacity out.new ≡ vec_capacity out.old }
    ensures few { vec_len out.new ≤ vec_len out.old + 11 }
{
    if !caret.visible {
        return spot;
    }
    go(out, spot, caret.x, caret.y);
    Spot {
        known: true,
        x: caret.x,
        y: caret.y,
    }
}

// Shows or hides the cursor, where it has to turn.
fn turn_if(out: &mut Vec<u8>, turn: bool, visible: bool)
    requires room { vec_len out.old + 6 ≤ vec_capacity out.old }
    ensures leads { (s : Page) → Leads out.old.items out.new.items s (if turn then record s { visible = visible } else s) 0 }
    ensures quiet { turn ≡ false → out.new.items ≡ out.old.items }
    ensures capacity { vec_capacity out.new ≡ vec_capacity out.old }
    ensures few { vec_len out.new ≤ vec_len out.old + 6 }
{
    if turn {
        show(out, visible);
    }
}

// Whether the cursor is hidden before the rows: where it may show, and is hidden in the end or goes through many rows.
fn must_hide(known: bool, many: bool, was: bool, now: bool) -> bool
    ensures quiet { known ≡ true → many ≡ false → was ≡ now → result ≡ false }
{
    (!known || was) && (many || !now)
}

// Whether the cursor has to be shown or hidden in the end.
fn must_turn(known: bool, hidden: bool, was: bool, now: bool) -> bool
    ensures hidden { result ≡ false → hidden ≡ true → now ≡ false }
    ensures seen { result ≡ false → hidden ≡ false → (known ≡ true) × (was ≡ now) }
    ensures quiet { known ≡ true → hidden ≡ false → was ≡ now → result ≡ false }
{
    if hidden {
        return now;
    }
    !(known && was == now)
}

// Brings the cursor to its place, shows or hides it, and gives its place.
fn finish(out: &mut Vec<u8>, known: bool, hidden: bool, was: bool, spot: Spot, caret: Caret) -> Spot
    requires small { (caret.x < 999) × (caret.y < 999) }
    requires room { vec_len out.old + 17 ≤ vec_capacity out.old }
    ensures placed { (s : Page) → (s.x < s.w) × (s.y < s.h) → (caret.visible ≡ true → (caret.x < s.w) × (caret.y < s.h))
        → (hidden ≡ true → s.visible ≡ false) → (hidden ≡ false → known ≡ true → s.visible ≡ was) → IsAt spot s
        → Placed out.old.items out.new.items s caret result }
    ensures spot { result ≡ (if caret.visible then record { known = true; x = caret.x; y = caret.y } else spot) }
    ensures quiet { known ≡ true → hidden ≡ false → was ≡ caret.visible
        → (caret.visible ≡ true → (spot.known ≡ true) × (spot.x ≡ caret.x) × (spot.y ≡ caret.y)) → out.new.items ≡ out.old.items }
    ensures capacity { vec_capacity out.new ≡ vec_capacity out.old }
    ensures few { vec_len out.new ≤ vec_len out.old + 17 }
{
    let end = settle(out, spot, caret);
    let turn = must_turn(known, hidden, was, caret.visible);
    turn_if(out, turn, caret.visible);
    end
}

/// Paints the rows that differ and brings the cursor to its place, where the begin of the frame has left the terminal with
/// the cells `shadow` and the cursor at a spot, if that is known. It gives the attribute of the pen, and the cursor's place.
pub(crate) fn draw(
    out: &mut Vec<u8>,
    cells: &[Cell],
    shadow: &[Cell],
    marks: &[bool],
    known: bool,
    size: Size,
    lifting: Lifting,
    spot: Spot,
    was: bool,
    caret: Caret,
) -> State
    requires few { (0 < size.w) × (size.w ≤ 512) × (size.h ≤ 256) }
    requires lengths { (length cells.now ≡ size.h * size.w) × (length shadow.now ≡ size.h * size.w) × (length marks.now ≡ size.h) }
    requires few_rows { lifting.rows ≤ size.h }
    requires marked { known ≡ true → lifting.lifted ≡ false → (y : ℕ) → y < size.h → slice_index_or marks.now y false ≡ false
        → row_of size.w cells.now y ≡ row_of size.w shadow.now y }
    requires lifted { known ≡ true → lifting.lifted ≡ true → (y : ℕ) → y < size.h - lifting.rows → row_of size.w cells.now y ≡ row_of size.w shadow.now y }
    requires small { (caret.x < 999) × (caret.y < 999) }
    requires room { vec_len out.old + 80 + size.h * (11 + 57 * size.w) ≤ vec_capacity out.old }
    ensures drawn { (s : Page) → Stands size.w size.h lifting.attr s → IsAt spot s → (known ≡ true → (s.cells ≡ shadow.now) × (s.visible ≡ was))
        → (caret.visible ≡ true → (caret.x < size.w) × (caret.y < size.h))
        → Drawn size.w size.h cells.now (size.w * rows_to_paint known size.w size.h cells.now shadow.now) caret result out.old.items out.new.items s }
    ensures spot { caret.visible ≡ true → result.spot ≡ record { known = true; x = caret.x; y = caret.y } }
    ensures quiet { known ≡ true → cells.now ≡ shadow.now → lifting.rows ≡ 0 → was ≡ caret.visible
        → (caret.visible ≡ true → (spot.known ≡ true) × (spot.x ≡ caret.x) × (spot.y ≡ caret.y)) → out.new.items ≡ out.old.items }
    ensures capacity { vec_capacity out.new ≡ vec_capacity out.old }
    ensures few { vec_len out.new ≤ vec_len out.old + 80 + size.h * (11 + 57 * size.w) }
{
    let tail = tail_of(cells, shadow, known, size, lifting.rows);
    let many = is_many(lifting.rows, size.h - tail);
    let hidden = must_hide(known, many, was, caret.visible);
    turn_if(out, hidden, false);
    let attr = lifting.attr;
    let before = State { attr, spot };
    let first = size.h - lifting.rows;
    let aim = aim_of(caret);
    let after = rows(
        out,
        cells,
        shadow,
        marks,
        lifting.lifted,
        first,
        known,
        size,
        tail,
        aim,
        before,
    );
    let end = finish(out, known, hidden, was, after.spot, caret);
    State {
        attr: after.attr,
        spot: end,
    }
}

//! Where a terminal's cursor stands, as far as a painter knows.
ghost use Rattle.std.specs.Prelude.{◌≡◌, ◌+◌, ◌-◌, ◌<◌, ◌≤◌, true, false};
ghost use Rattle.std.specs.Vec.{vec_len, vec_capacity};
ghost use Rattle.con_term.specs.Page.{Page};
ghost use Rattle.con_strokes.specs.Leads.{Leads};
ghost use Rattle.con_strokes.specs.Spot as spots;

use crate::emit::{
    above, backspace, carriage_return, down, go_to, left, next_row, right, second_row,
};
use crate::width::is_trusted;
use con_units::Attr;

/// A place, counted from 0, where the cursor stands with no wrap pending, if that is known.
#[derive(Clone, Copy)]
pub struct Spot {
    pub known: bool,
    pub x: u16,
    pub y: u16,
}

/// What is known between two rows: the attribute of the pen, and the cursor's place.
#[derive(Clone, Copy)]
pub struct State {
    pub attr: Attr,
    pub spot: Spot,
}

/// No known place.
pub const NOWHERE: Spot = Spot {
    known: false,
    x: 0,
    y: 0,
};

/// The place, where something is known.
pub fn spot_if(known: bool, spot: Spot) -> Spot
    ensures there { result.known ≡ true → (known ≡ true) × (spot.known ≡ true) × (result.x ≡ spot.x) × (result.y ≡ spot.y) }
    ensures same { known ≡ true → result ≡ spot }
{
    if known { spot } else { NOWHERE }
}

/// The place behind a unit that was printed in a column, where that is not a row's last one and the unit's width is not doubted.
pub fn spot_behind(unit: u16, x: u16, width: usize, y: u16) -> Spot
    requires { (x < width) × (width ≤ 512) }
    ensures { spots.IsBehind result unit x width y }
{
    if (x as usize) + 1 < width && is_trusted(unit) {
        Spot {
            known: true,
            x: x + 1,
            y,
        }
    } else {
        NOWHERE
    }
}

// How many bytes move by a count: a 1 is left out.
fn bytes_of_count(n: u16) -> u16
    ensures { result ≤ 6 }
{
    match n {
        0 => 0,
        1 => 3,
        2..=9 => 4,
        10..=99 => 5,
        _ => 6,
    }
}

// How many bytes bring the cursor from a column to another one of its row.
fn bytes_in_row(from: u16, to: u16) -> u16
    ensures { result ≤ 6 }
{
    if from <= to {
        return bytes_of_count(to - from);
    }
    if to == 0 {
        return 1;
    }
    if from - to < 3 {
        from - to
    } else {
        bytes_of_count(from - to)
    }
}

// How many digits a number has.
fn digits(n: u16) -> u16
    ensures { result ≤ 3 }
{
    match n {
        0..=9 => 1,
        10..=99 => 2,
        _ => 3,
    }
}

// How many bytes name a place.
fn bytes_of_place(x: u16, y: u16) -> u16
    requires { (x < 999) × (y < 999) }
{
    match (x, y) {
        (0, 0) => 3,
        (0, _) => 3 + digits(y + 1),
        (_, _) => 4 + digits(y + 1) + digits(x + 1),
    }
}

// How far two rows are apart.
fn apart(a: u16, b: u16) -> u16
    ensures { result ≡ (a - b) + (b - a) }
{
    if a < b { b - a } else { a - b }
}

// How many bytes go to a row, and then to a column of it.
fn bytes_straight(at: Spot, x: u16, y: u16) -> u16
    ensures { result ≤ 12 }
{
    bytes_of_count(apart(at.y, y)) + bytes_in_row(at.x, x)
}

// Whether the fewest bytes go by the first column of the row: one below, or two.
fn is_begun(at: Spot, x: u16, y: u16) -> bool
    requires { (x < 999) × (y < 999) }
    ensures { result ≡ true → (at.y < y) × (y ≤ at.y + 2) }
{
    if y <= at.y || 2 < y - at.y {
        return false;
    }
    let bytes = 1 + (y - at.y) + bytes_of_count(x);
    bytes <= bytes_straight(at, x, y) && bytes < bytes_of_place(x, y)
}

// Whether fewer bytes go to the row, one of the next nine, and then to the column than name the place.
fn is_straight(at: Spot, x: u16, y: u16) -> bool
    requires { (x < 999) × (y < 999) }
    ensures { result ≡ true → (at.y < y + 10) × (y < at.y + 10) }
{
    apart(at.y, y) < 10 && bytes_straight(at, x, y) < bytes_of_place(x, y)
}

// Brings the cursor some columns back in its row.
fn go_back(out: &mut Vec<u8>, n: u16)
    requires few { (n < 1000) × (0 < n) }
    requires room { vec_len out.old + 7 ≤ vec_capacity out.old }
    ensures leads { (s : Page) → Leads out.old.items out.new.items s (record s { x = s.x - n; pending = false }) 0 }
    ensures capacity { vec_capacity out.new ≡ vec_capacity out.old }
    ensures few { vec_len out.new ≤ vec_len out.old + 7 }
{
    if n == 1 {
        backspace(out);
    } else if n == 2 {
        backspace(out);
        backspace(out);
    } else {
        left(out, n);
    }
}

// Brings the cursor to a column of its row, where it does not stand there.
fn go_in_row(out: &mut Vec<u8>, at: Spot, x: u16, y: u16)
    requires small { (x < 999) × (at.x < 999) }
    requires known { at.known ≡ true }
    requires row { at.y ≡ y }
    requires room { vec_len out.old + 7 ≤ vec_capacity out.old }
    ensures leads { (s : Page) → (x < s.w) × (y < s.h) → spots.IsAt at s → Leads out.old.items out.new.items s (record s { x = x; y = y; pending = false }) 0 }
    ensures quiet { at.x ≡ x → out.new.items ≡ out.old.items }
    ensures capacity { vec_capacity out.new ≡ vec_capacity out.old }
    ensures few { vec_len out.new ≤ vec_len out.old + 7 }
{
    if at.x == x {
        return;
    }
    if x == 0 {
        carriage_return(out);
    } else if at.x < x {
        right(out, x - at.x);
    } else {
        go_back(out, at.x - x);
    }
}

// Brings the cursor to the first column of the next row, or of the row behind that.
fn begin_row(out: &mut Vec<u8>, at: Spot, y: u16)
    requires known { at.known ≡ true }
    requires below { (at.y < y) × (y ≤ at.y + 2) }
    requires room { vec_len out.old + 3 ≤ vec_capacity out.old }
    ensures leads { (s : Page) → y < s.h → spots.IsAt at s → Leads out.old.items out.new.items s (record s { x = 0; y = y; pending = false }) 0 }
    ensures capacity { vec_capacity out.new ≡ vec_capacity out.old }
    ensures few { vec_len out.new ≤ vec_len out.old + 3 }
{
    if y - at.y == 1 {
        next_row(out);
    } else {
        second_row(out);
    }
}

// Brings the cursor to a row in its column.
fn go_straight(out: &mut Vec<u8>, at: Spot, y: u16)
    requires known { at.known ≡ true }
    requires near { (at.y < y + 10) × (y < at.y + 10) }
    requires room { vec_len out.old + 7 ≤ vec_capacity out.old }
    ensures leads { (s : Page) → y < s.h → spots.IsAt at s → Leads out.old.items out.new.items s (record s { y = y; pending = false }) 0 }
    ensures capacity { vec_capacity out.new ≡ vec_capacity out.old }
    ensures few { vec_len out.new ≤ vec_len out.old + 4 }
{
    if at.y < y {
        down(out, y - at.y);
    } else if y < at.y {
        above(out, at.y - y);
    }
}

// Brings the cursor to a place in another row, by the fewest bytes of three ways.
fn go_to_row(out: &mut Vec<u8>, at: Spot, x: u16, y: u16)
    requires small { (x < 999) × (y < 999) × (at.x < 999) }
    requires known { at.known ≡ true }
    requires room { vec_len out.old + 11 ≤ vec_capacity out.old }
    ensures leads { (s : Page) → (x < s.w) × (y < s.h) → spots.IsAt at s → Leads out.old.items out.new.items s (record s { x = x; y = y; pending = false }) 0 }
    ensures capacity { vec_capacity out.new ≡ vec_capacity out.old }
    ensures few { vec_len out.new ≤ vec_len out.old + 11 }
{
    if is_begun(at, x, y) {
        begin_row(out, at, y);
        let first = Spot {
            known: true,
            x: 0,
            y,
        };
        go_in_row(out, first, x, y);
    } else if is_straight(at, x, y) {
        go_straight(out, at, y);
        let there = Spot {
            known: true,
            x: at.x,
            y,
        };
        go_in_row(out, there, x, y);
    } else {
        go_to(out, y + 1, x + 1);
    }
}

// Whether the cursor is known to stand at a place.
fn is_there(at: Spot, x: u16, y: u16) -> bool
    ensures there { result ≡ true → (at.known ≡ true) × (at.x ≡ x) × (at.y ≡ y) }
    ensures elsewhere { result ≡ false → at.known ≡ true → at.x ≡ x → at.y ≡ y → ⊥ }
{
    at.known && at.x == x && at.y == y
}

// Brings the cursor to a place, counted from 0.
fn move_to(out: &mut Vec<u8>, at: Spot, x: u16, y: u16)
    requires small { (x < 999) × (y < 999) }
    requires room { vec_len out.old + 11 ≤ vec_capacity out.old }
    ensures leads { (s : Page) → (x < s.w) × (y < s.h) → spots.IsAt at s → Leads out.old.items out.new.items s (record s { x = x; y = y; pending = false }) 0 }
    ensures capacity { vec_capacity out.new ≡ vec_capacity out.old }
    ensures few { vec_len out.new ≤ vec_len out.old + 11 }
{
    if !at.known {
        go_to(out, y + 1, x + 1);
    } else if 999 <= at.x {
        go_to(out, y + 1, x + 1);
    } else if at.y == y {
        go_in_row(out, at, x, y);
    } else {
        go_to_row(out, at, x, y);
    }
}

/// Brings the cursor to a place, counted from 0, where it does not stand there.
pub fn go(out: &mut Vec<u8>, at: Spot, x: u16, y: u16)
    requires small { (x < 999) × (y < 999) }
    requires room { vec_len out.old + 11 ≤ vec_capacity out.old }
    ensures leads { (s : Page) → (x < s.w) × (y < s.h) → spots.IsAt at s → Leads out.old.items out.new.items s (record s { x = x; y = y; pending = false }) 0 }
    ensures quiet { at.known ≡ true → at.x ≡ x → at.y ≡ y → out.new.items ≡ out.old.items }
    ensures capacity { vec_capacity out.new ≡ vec_capacity out.old }
    ensures few { vec_len out.new ≤ vec_len out.old + 11 }
{
    if is_there(at, x, y) {
        return;
    }
    move_to(out, at, x, y);
}

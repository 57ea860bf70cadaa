//! Cells, one after another in a row.
ghost use Rattle.std.specs.Prelude.{◌≡◌, ◌↔◌, ◌+◌, ◌<◌, ◌≤◌, true, length};
ghost use Rattle.std.specs.Vec.{vec_len, vec_capacity};
ghost use Rattle.con_units.specs.Words.Attr.{IsAttribute};
ghost use Rattle.con_units.specs.Glyph.{blank_cell};
ghost use Rattle.con_units.specs.Stored.{stored_unit};
ghost use Rattle.con_term.specs.Same.{same_attr, same_shade};
ghost use Rattle.con_term.specs.Page.{Page};
ghost use Rattle.con_strokes.specs.Leads.{Leads};
ghost use Rattle.con_strokes.specs.Ink.{pen_for};
ghost use Rattle.con_strokes.specs.Compared.{same_cell, same_cells};
ghost use Rattle.con_strokes.specs.Paint.{cell_printed};

use crate::emit::print;
use crate::pen::{choose, plain_attr};
use con_units::{Attr, Cell, Shade};

/// A space in the attribute that a terminal starts with.
pub fn blank() -> Cell
    ensures { result ≡ blank_cell }
{
    Cell::new(0x20, plain_attr())
}

// Whether two shades are the same.
fn is_same_shade(a: Shade, b: Shade) -> bool
    ensures { result ≡ same_shade a b }
{
    match a {
        Shade::Plain => match b {
            Shade::Plain => true,
            Shade::Index(_) => false,
        },
        Shade::Index(m) => match b {
            Shade::Plain => false,
            Shade::Index(n) => m == n,
        },
    }
}

/// Whether two attributes are the same.
#[tactic(auto, unfolding(con_term::specs::Same::same_attr))]
pub fn is_same_attr(a: Attr, b: Attr) -> bool
    ensures value { result ≡ same_attr a b }
    ensures kept { (IsAttribute a × (a.word < 0x10000)) × (IsAttribute b × (b.word < 0x10000)) }
{
    a.bits() == b.bits() && is_same_shade(a.fore(), b.fore()) && is_same_shade(a.back(), b.back())
}

// Whether two cells are equal.
fn is_equal(a: &Cell, b: &Cell) -> bool
    ensures { (result ≡ true) ↔ (a.now ≡ b.now) }
{
    *a == *b
}

/// Whether two cells are the same.
pub fn is_same(a: &Cell, b: &Cell) -> bool
    ensures { result ≡ same_cell a.now b.now }
{
    is_equal(a, b)
}

/// Whether two rows have the same cells.
pub fn same(a: &[Cell], b: &[Cell]) -> bool
    requires { length a.now ≡ length b.now }
    ensures { result ≡ same_cells a.now b.now }
{
    for (i, one) in a.iter().enumerate() {
        if !is_same(one, &b[i]) {
            return false;
        }
    }
    true
}

/// Prints a unit in an attribute, where the pen is that of the attribute before.
pub fn cell(out: &mut Vec<u8>, unit: u16, attr: Attr, before: Attr)
    requires shown { stored_unit unit ≡ unit }
    requires room { vec_len out.old + 46 ≤ vec_capacity out.old }
    ensures leads { (s : Page) → s.pen ≡ pen_for before → Leads out.old.items out.new.items s (cell_printed s (record { unit = unit; attr = attr })) 1 }
    ensures kept { IsAttribute attr × (attr.word < 0x10000) }
    ensures capacity { vec_capacity out.new ≡ vec_capacity out.old }
    ensures few { vec_len out.new ≤ vec_len out.old + 46 }
{
    choose(out, before, attr);
    print(out, unit);
}

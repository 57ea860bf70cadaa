//! Whether it is known what a terminal shows.
ghost use Rattle.std.specs.Prelude.{◌≡◌, ◌↔◌, true, pos, []};
ghost use Rattle.con_term.specs.Inside.{parts};
ghost use Rattle.con_term.specs.Terminal.{Shows};
ghost use Rattle.con_audit.specs.Known.{is_sure};
ghost use Rattle.con_audit.specs.Flags.{are_sure};

use crate::marking::Flags;
use con_term::page::Page;
use con_units::{Cell, Coord, Shade, Utf8, View};
use con_vtgram::Splitter;

fn is_sure(mark: Cell) -> bool
    ensures { result ≡ is_sure mark }
{
    match mark.attr().fore() {
        Shade::Plain => true,
        Shade::Index(_) => false,
    }
}

// Whether all marks are of cells that are known.
fn are_sure(marks: &[Cell]) -> bool
    ensures { result ≡ are_sure marks.now }
{
    for mark in marks {
        if !is_sure(*mark) {
            return false;
        }
    }
    true
}

/// Whether all is known that a view tells: cells, visibility, and the cursor where it shows.
pub fn are_known(marks: &[Cell], flags: Flags, visible: bool) -> bool
    ensures { (result ≡ true) ↔ ((are_sure marks.now ≡ true) × (flags.visible ≡ true) × (visible ≡ true → flags.cursor ≡ true)) }
{
    flags.visible && (!visible || flags.cursor) && are_sure(marks)
}

// Whether cells are the same.
fn are_same(cells: &[Cell], others: &[Cell]) -> bool
    ensures { (result ≡ true) ↔ (cells.now ≡ others.now) }
{
    if cells.len() != others.len() {
        return false;
    }
    for at in 0..cells.len() {
        if cells[at] != others[at] {
            return false;
        }
    }
    true
}

// Whether a page has the view's sides, visibility, and cursor where it shows.
fn has_frame(page: &Page, view: &View) -> bool
    ensures { (result ≡ true) ↔ ((page.now.w ≡ view.now.size.w) × (page.now.h ≡ view.now.size.h) × (page.now.visible ≡ view.now.visible)
        × (view.now.visible ≡ true → (pos page.now.x ≡ view.now.cursor.x) × (pos page.now.y ≡ view.now.cursor.y))) }
{
    let size = page.size();
    size.w == view.size.w
        && size.h == view.size.h
        && page.is_visible() == view.visible
        && (!view.visible || has_cursor(page, view.cursor))
}

// Whether a page's cursor stands there.
fn has_cursor(page: &Page, cursor: Coord) -> bool
    ensures { (result ≡ true) ↔ ((pos page.now.x ≡ cursor.x) × (pos page.now.y ≡ cursor.y)) }
{
    page.column() as i16 == cursor.x && page.row() as i16 == cursor.y
}

// Whether nothing is unfinished.
fn is_between(bytes: &Utf8, units: &Splitter) -> bool
    ensures { (result ≡ true) ↔ ((bytes.now ≡ []) × (units.now.tail ≡ [])) }
{
    bytes.held() == 0 && units.is_clear()
}

/// Whether a terminal of these parts shows the view, between sequences.
pub fn shows(page: &Page, bytes: &Utf8, units: &Splitter, view: &View) -> bool
    ensures { (result ≡ true) ↔ Shows (parts bytes.now page.now units.now) view.now }
{
    is_between(bytes, units)
        && has_frame(page, view)
        && are_same(page.cells(), view.rows.as_slice())
}

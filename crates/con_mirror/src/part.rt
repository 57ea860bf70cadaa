//! The part of a view that a terminal of another size shows.
ghost use Rattle.std.specs.Prelude.{◌≡◌, ℕ, ◌+◌, ◌*◌, ◌<◌, ◌≤◌, ◌≤ℤ◌, pos, true, false, ◌++◌, get_or, length, replicate, slice_index_or, take, drop};
ghost use Rattle.con_units.specs.Glyph.{blank_cell};
ghost use Rattle.con_units.specs.Natural.{natural};
ghost use Rattle.con_units.specs.View.{row_of};
ghost use Rattle.con_units.specs.Words.View.{IsWhole};
ghost use Rattle.con_mirror.specs.Part.{corner, part};
ghost use Rattle.con_mirror.specs.Parts.{cursor_from, left_of, padded, part_rows, top_of};
ghost use Rattle.con_mirror.specs.Inside.{IsSince};

use con_units::{Attr, Cell, Coord, Marks, Size, View, index_of};

/// Where the part of a view begins.
#[derive(Clone, Copy)]
pub struct Corner {
    pub left: usize,
    pub top: usize,
}

/// A space in white on black.
pub(crate) fn blank() -> Cell
    ensures { result ≡ blank_cell }
{
    Cell::new(0x20, Attr::of(7))
}

// Where n columns or rows begin.
fn corner_of(visible: bool, at: i16, n: u16) -> usize
    requires some { 0 < n }
    requires shown { visible ≡ true → pos 0 ≤ℤ at }
    ensures { result ≡ corner visible (natural at) n }
{
    if visible {
        index_of(at).saturating_sub(n as usize - 1)
    } else {
        0
    }
}

/// Where the part of a view at this size begins.
pub(crate) fn corner_in(view: &View, size: Size) -> Corner
    requires whole { IsWhole view.now }
    requires size { (0 < size.w) × (0 < size.h) }
    ensures left { result.left ≡ left_of view.now size.w }
    ensures top { result.top ≡ top_of view.now size.h }
    ensures few { result.top ≤ 65535 }
{
    Corner {
        left: corner_of(view.visible, view.cursor.x, size.w),
        top: corner_of(view.visible, view.cursor.y, size.h),
    }
}

// The cells of row y of a view, from the column `left` on; none past the view.
fn row_from(view: &View, left: usize, y: usize) -> &[Cell]
    requires { IsWhole view.now }
    ensures { result.now ≡ drop left (row_of view.now.size.w view.now.rows y) }
{
    let w = view.size.w as usize;
    if left >= w || y >= view.size.h as usize {
        return &[];
    }
    let at = y * w;
    &view.rows.as_slice()[at + left..at + w]
}

// The cell at a place of a row; a space past it.
fn cell_or_blank(row: &[Cell], x: usize) -> Cell
    ensures { result ≡ get_or row.now x blank_cell }
{
    if x < row.len() {
        return row[x];
    }
    blank()
}

// Writes the cells of a row from a place on, and then spaces, so many in all.
fn put_row(cells: &mut [Cell], at: usize, n: usize, row: &[Cell])
    requires { at + n ≤ length cells.old }
    ensures { cells.new ≡ take at cells.old ++ (padded n row.now ++ drop (at + n) cells.old) }
{
    for x in 0..n {
        cells[at + x] = cell_or_blank(row, x);
    }
}

// Whether two cells are the same.
fn is_same(a: Cell, b: Cell) -> bool
    ensures { result ≡ true → a ≡ b }
{
    a == b
}

// Whether two rows have the same cells.
fn are_same(a: &[Cell], b: &[Cell]) -> bool
    requires { length a.now ≡ length b.now }
    ensures { result ≡ true → a.now ≡ b.now }
{
    for x in 0..a.len() {
        if !is_same(a[x], b[x]) {
            return false;
        }
    }
    true
}

// Whether all cells are spaces in white on black.
fn are_blank(cells: &[Cell]) -> bool
    ensures { result ≡ true → cells.now ≡ replicate (length cells.now) blank_cell }
{
    let blank = blank();
    for x in 0..cells.len() {
        if !is_same(cells[x], blank) {
            return false;
        }
    }
    true
}

// Whether these cells are those of a row, and spaces past it.
fn stands(cells: &[Cell], row: &[Cell]) -> bool
    ensures { result ≡ true → padded (length cells.now) row.now ≡ cells.now }
{
    let n = row.len();
    if cells.len() <= n {
        return are_same(cells, &row[..cells.len()]);
    }
    if !are_same(&cells[..n], row) {
        return false;
    }
    are_blank(&cells[n..])
}

// Writes the cells of a row from a place on, and then spaces, so many in all, where others stand there, and tells whether they do.
fn renew_row(cells: &mut [Cell], at: usize, n: usize, row: &[Cell]) -> bool
    requires { at + n ≤ length cells.old }
    ensures cells { cells.new ≡ take at cells.old ++ (padded n row.now ++ drop (at + n) cells.old) }
    ensures same { result ≡ false → padded n row.now ≡ take n (drop at cells.old) }
{
    if stands(&cells[at..at + n], row) {
        return false;
    }
    put_row(cells, at, n, row);
    true
}

// The same of a row that may have become another one. Else it stands there.
fn renew_if(cells: &mut [Cell], wanted: bool, at: usize, n: usize, row: &[Cell]) -> bool
    requires room { at + n ≤ length cells.old }
    requires stands { wanted ≡ false → padded n row.now ≡ take n (drop at cells.old) }
    ensures cells { cells.new ≡ take at cells.old ++ (padded n row.now ++ drop (at + n) cells.old) }
    ensures same { result ≡ false → padded n row.now ≡ take n (drop at cells.old) }
{
    if !wanted {
        return false;
    }
    renew_row(cells, at, n, row)
}

// Whether a row of a view has to be looked at: each where the part began elsewhere, and else one with a mark, or past the view.
fn may_differ(since: &[bool], stays: bool, y: usize) -> bool
    ensures { result ≡ false → (stays ≡ true) × (y < length since.now) × (slice_index_or since.now y false ≡ false) }
{
    if !stays || y >= since.len() {
        return true;
    }
    since[y]
}

// Writes the rows of a part, where others stand there, and marks these. Where the part begins where the one before did, a row of
// the view without a mark is not looked at.
fn renew_rows(
    cells: &mut [Cell],
    marks: &mut [bool],
    view: &View,
    since: &[bool],
    corner: Corner,
    stays: bool,
    size: Size,
)
    requires whole { IsWhole view.now }
    requires few { corner.top ≤ 65535 }
    requires room { length cells.old ≡ size.h * size.w }
    requires marks { length marks.old ≡ size.h }
    requires since { IsSince view.now since.now corner.left corner.top size.w size.h stays cells.old }
    ensures cells { cells.new ≡ part_rows view.now corner.left corner.top size.w size.h }
    ensures count { length marks.new ≡ size.h }
    ensures same { (y : ℕ) → y < size.h → slice_index_or marks.new y false ≡ false → row_of size.w cells.new y ≡ row_of size.w cells.old y }
{
    let w = size.w as usize;
    for y in 0..size.h as usize {
        let wanted = may_differ(since, stays, corner.top + y);
        let row = row_from(view, corner.left, corner.top + y);
        marks[y] = renew_if(cells, wanted, y * w, w, row);
    }
}

// The same of cells and marks in vectors.
fn renew(
    cells: &mut Vec<Cell>,
    marks: &mut Vec<bool>,
    view: &View,
    since: &[bool],
    corner: Corner,
    stays: bool,
    size: Size,
)
    requires whole { IsWhole view.now }
    requires few { corner.top ≤ 65535 }
    requires room { length cells.old.items ≡ size.h * size.w }
    requires marks { length marks.old.items ≡ size.h }
    requires since { IsSince view.now since.now corner.left corner.top size.w size.h stays cells.old.items }
    ensures cells { cells.new.items ≡ part_rows view.now corner.left corner.top size.w size.h }
    ensures count { length marks.new.items ≡ size.h }
    ensures same { (y : ℕ) → y < size.h → slice_index_or marks.new.items y false ≡ false → row_of size.w cells.new.items y ≡ row_of size.w cells.old.items y }
{
    renew_rows(
        cells.as_mut_slice(),
        marks.as_mut_slice(),
        view,
        since,
        corner,
        stays,
        size,
    );
}

// The cursor of a part.
fn cursor_of(view: &View, left: usize, top: usize) -> Coord
    requires whole { IsWhole view.now }
    ensures { result ≡ cursor_from view.now.visible (natural view.now.cursor.x) (natural view.now.cursor.y) left top }
{
    if view.visible {
        Coord {
            x: index_of(view.cursor.x).saturating_sub(left) as i16,
            y: index_of(view.cursor.y).saturating_sub(top) as i16,
        }
    } else {
        Coord { x: 0, y: 0 }
    }
}

/// Makes a view of this size, with all its cells, the part of another view that begins there, and marks its rows. One without a
/// mark is as it was. Where the part begins where the one before did, a row of that view without a mark is not looked at.
pub(crate) fn put_part(
    shown: &mut View,
    marks: &mut Marks,
    view: &View,
    since: &Marks,
    corner: Corner,
    stays: bool,
)
    requires whole { IsWhole view.now }
    requires room { length shown.old.rows ≡ shown.old.size.h * shown.old.size.w }
    requires marks { length marks.old ≡ shown.old.size.h }
    requires left { corner.left ≡ left_of view.now shown.old.size.w }
    requires top { corner.top ≡ top_of view.now shown.old.size.h }
    requires few { corner.top ≤ 65535 }
    requires since { IsSince view.now since.now corner.left corner.top shown.old.size.w shown.old.size.h stays shown.old.rows }
    ensures part { shown.new ≡ part view.now shown.old.size }
    ensures count { length marks.new ≡ shown.old.size.h }
    ensures same { (y : ℕ) → y < shown.old.size.h → slice_index_or marks.new y false ≡ false
        → row_of shown.old.size.w shown.new.rows y ≡ row_of shown.old.size.w shown.old.rows y }
{
    let size = shown.size;
    renew(
        &mut shown.rows.0,
        &mut marks.0,
        view,
        since.as_slice(),
        corner,
        stays,
        size,
    );
    shown.cursor = cursor_of(view, corner.left, corner.top);
    shown.visible = view.visible;
}

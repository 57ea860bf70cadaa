//! The painter.
ghost use Rattle.std.specs.Prelude.{◌≡◌, ◌+◌, ◌-◌, ◌*◌, ◌<◌, ◌≤◌, ℕ, true, false, ◌++◌, length, drop, slice_index_or, if◌then◌else◌, IfOk, MatchResult};
ghost use Rattle.std.specs.Vec.{vec_len, vec_capacity};
ghost use Rattle.con_units.specs.View.{row_of};
ghost use Rattle.con_units.specs.Words.View.{IsWhole};
ghost use Rattle.con_units.specs.Words.Limits.{IsWindow};
ghost use Rattle.con_term.specs.Terminal.{Terminal};
ghost use Rattle.con_strokes.specs.Paint.{pasted};
ghost use Rattle.con_paint.specs.Painter.{Allows, IsShown, Paints, frame_room, unpainted};

use crate::frame::{caret_of, draw};
use crate::lift::{begin, count};
use crate::rows::may_differ;
use con_strokes::cells::blank;
use con_strokes::checksum::Checksums;
use con_strokes::emit::either;
use con_strokes::pen::plain_attr;
use con_strokes::spot::{NOWHERE, Spot, spot_if};
use con_units::{Attr, Cell, Marks, OutOfMemory, Size, View};
use std::alloc::Global;
use std::marker::Model;

/// A painter of views on one terminal. Contracts see what it keeps of the view that it painted last.
pub struct Painter {
    size: Size,
    known: bool,
    shadow: Vec<Cell>,
    sums: Vec<Checksums>,
    attr: Attr,
    spot: Spot,
    visible: bool,
}

impl Model for Painter {
    ghost use Rattle.con_paint.specs.Painter.{Kept};

    ghost Value = { Kept };

    ghost use Rattle.con_paint.specs.Inside.{kept_of, IsInside};

    ghost view = { kept_of };

    ghost invariant = { IsInside };
}

// By hand, so that what drops one has this call in its proof, and not all that lies in one.
impl Drop for Painter {
    fn drop(self) {
        let Painter {
            size: _,
            known: _,
            shadow: _,
            sums: _,
            attr: _,
            spot: _,
            visible: _,
        } = self;
    }
}

/// The spare, in bytes, that any frame of this size needs.
pub fn room_for(size: Size) -> usize
    requires { IsWindow size.w size.h }
    ensures { result ≡ frame_room size.w size.h }
{
    160 + size.h as usize * (11 + 57 * size.w as usize)
}

// Blanks for all cells of a size.
fn blanks(alloc: Global, size: Size) -> Result<Vec<Cell>, OutOfMemory>
    requires { IsWindow size.w size.h }
    ensures { IfOk result (λ cells. cells.items ≡ (unpainted size.w size.h).cells) }
{
    match Vec::from_elem(alloc, blank(), size.h as usize * size.w as usize) {
        Ok(cells) => Ok(cells),
        Err(_) => Err(OutOfMemory),
    }
}

// Checksums for all rows of a size.
fn no_sums(alloc: Global, size: Size) -> Result<Vec<Checksums>, OutOfMemory>
    ensures { IfOk result (λ sums. length sums.items ≡ size.h) }
{
    match Vec::from_elem(alloc, Checksums { was: 0, now: 0 }, size.h as usize) {
        Ok(sums) => Ok(sums),
        Err(_) => Err(OutOfMemory),
    }
}

// Copies a row to a place, where it is wanted.
fn copy_if(shadow: &mut [Cell], wanted: bool, at: usize, row: &[Cell])
    requires { at + length row.now ≤ length shadow.old }
    ensures { shadow.new ≡ (if wanted then pasted shadow.old at row.now else shadow.old) }
{
    if wanted {
        shadow[at..at + row.len()].copy_from_slice(row);
    }
}

// Makes the cells those of a view, row by row, where they may differ.
fn keep_rows(
    shadow: &mut [Cell],
    cells: &[Cell],
    marks: &[bool],
    known: bool,
    lifted: bool,
    rows: u16,
    size: Size,
)
    requires few { (size.w ≤ 512) × (size.h ≤ 256) × (rows ≤ size.h) }
    requires lengths { (length cells.now ≡ size.h * size.w) × (length shadow.old ≡ size.h * size.w) × (length marks.now ≡ size.h) }
    requires marked { known ≡ true → lifted ≡ false → (y : ℕ) → y < size.h → slice_index_or marks.now y false ≡ false
        → row_of size.w cells.now y ≡ row_of size.w shadow.old y }
    requires lifted { known ≡ true → lifted ≡ true → (y : ℕ) → y < size.h - rows → row_of size.w cells.now y ≡ row_of size.w shadow.old y }
    ensures { shadow.new ≡ cells.now }
{
    let width = size.w as usize;
    let first = size.h - rows;
    for y in 0..size.h {
        let marked = may_differ(lifted, first, y, marks[y as usize]);
        let wanted = either(!known, marked);
        let from = y as usize * width;
        let row = &cells[from..from + width];
        copy_if(shadow, wanted, from, row);
    }
}

// Makes the cells those of a view.
fn keep(
    shadow: &mut Vec<Cell>,
    cells: &[Cell],
    marks: &[bool],
    known: bool,
    lifted: bool,
    rows: u16,
    size: Size,
)
    requires few { (size.w ≤ 512) × (size.h ≤ 256) × (rows ≤ size.h) }
    requires lengths { (length cells.now ≡ size.h * size.w) × (length shadow.old.items ≡ size.h * size.w) × (length marks.now ≡ size.h) }
    requires marked { known ≡ true → lifted ≡ false → (y : ℕ) → y < size.h → slice_index_or marks.now y false ≡ false
        → row_of size.w cells.now y ≡ row_of size.w shadow.old.items y }
    requires lifted { known ≡ true → lifted ≡ true → (y : ℕ) → y < size.h - rows → row_of size.w cells.now y ≡ row_of size.w shadow.old.items y }
    ensures { shadow.new.items ≡ cells.now }
{
    keep_rows(
        shadow.as_mut_slice(),
        cells,
        marks,
        known,
        lifted,
        rows,
        size,
    );
}

impl Painter {
    /// A painter that has painted nothing, for a window of 1 to 512 columns and 1 to 256 rows.
    pub fn new(alloc: Global, size: Size) -> Result<Painter, OutOfMemory>
        requires { IsWindow size.w size.h }
        ensures { IfOk result (λ p. p ≡ unpainted size.w size.h) }
    {
        let shadow = blanks(alloc, size)?;
        let sums = no_sums(alloc, size)?;
        Ok(Painter {
            size,
            known: false,
            shadow,
            sums,
            attr: plain_attr(),
            spot: NOWHERE,
            visible: false,
        })
    }

    /// Forgets what it painted, for a terminal of this size of which nothing is known. Unchanged where there is no memory.
    pub fn resize(&mut self, size: Size) -> Result<(), OutOfMemory>
        requires { IsWindow size.w size.h }
        ensures { MatchResult result (λ _. self.new ≡ unpainted size.w size.h) (λ _. self.new ≡ self.old) }
    {
        let alloc = *self.shadow.allocator();
        let shadow = blanks(alloc, size)?;
        let sums = no_sums(alloc, size)?;
        self.size = size;
        self.known = false;
        self.shadow = shadow;
        self.sums = sums;
        self.attr = plain_attr();
        self.spot = NOWHERE;
        self.visible = false;
        Ok(())
    }

    /// Appends a frame: bytes that bring each terminal that the painter allows to one that shows the view, and that it
    /// allows again. A row without a mark is as it was in the view that was painted last. The bytes before stay as they
    /// were.
    pub fn paint(&mut self, view: &View, marks: &Marks, out: &mut Vec<u8>)
        requires view { IsWhole view.now }
        requires size { (view.now.size.w ≡ self.old.w) × (view.now.size.h ≡ self.old.h) }
        requires marks { length marks.now ≡ self.old.h }
        requires marked { self.old.known ≡ true → (y : ℕ) → y < self.old.h → slice_index_or marks.now y false ≡ false
            → row_of self.old.w view.now.rows y ≡ row_of self.old.w self.old.cells y }
        requires room { vec_len out.old + frame_room self.old.w self.old.h ≤ vec_capacity out.old }
        ensures paints { (t : Terminal) → Allows self.old t → Paints self.old self.new view.now (drop (length out.old.items) out.new.items) t }
        ensures appends { out.new.items ≡ out.old.items ++ drop (length out.old.items) out.new.items }
        ensures shown { IsShown self.new view.now }
        ensures size { (self.new.w ≡ self.old.w) × (self.new.h ≡ self.old.h) }
        ensures quiet { IsShown self.old view.now → out.new.items ≡ out.old.items }
        ensures capacity { vec_capacity out.new ≡ vec_capacity out.old }
        ensures few { vec_len out.new ≤ vec_len out.old + frame_room self.old.w self.old.h }
    {
        // it opens the painter: what it has kept is known to each call below, for all clauses
        let _ = &self.size;
        let (size, known) = (self.size, self.known);
        let caret = caret_of(view);
        let cells = view.rows.as_slice();
        let marks = marks.as_slice();
        let at = spot_if(known, self.spot);
        let was = self.shadow.as_slice();
        let rows = count(&mut self.sums, cells, was, marks, known, size);
        let lifting = begin(
            out,
            &mut self.shadow,
            cells,
            self.sums.as_slice(),
            rows,
            known,
            size,
            at,
            self.attr,
        );
        let spot = lifting.spot;
        let lifted = lifting.lifted;
        let left = lifting.rows;
        let end = draw(
            out,
            cells,
            self.shadow.as_slice(),
            marks,
            known,
            size,
            lifting,
            spot,
            self.visible,
            caret,
        );
        keep(&mut self.shadow, cells, marks, known, lifted, left, size);
        self.known = true;
        self.attr = end.attr;
        self.spot = end.spot;
        self.visible = caret.visible;
    }
}

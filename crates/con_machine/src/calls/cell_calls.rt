//! Calls on the cells that a buffer shows: rectangles and runs.
ghost use Rattle.std.specs.Prelude.{◌≡◌, ◌≤◌, ◌==◌, ℕ, ℤ, ◌-ℤ◌, ◌+◌, [], true, length, map, vec_capacity, int_le, if◌then◌else◌, IfOk};
ghost use Rattle.con_units.specs.Natural.{natural};
ghost use Rattle.con_units.specs.Attr.{plain};
ghost use Rattle.con_units.specs.Glyph.{cell_of};
ghost use Rattle.con_rects.specs.Area.{cell_count};
ghost use Rattle.con_machine.specs.CellCalls.{run_told, wrote_run_units, wrote_run_words, are_words, are_cells, cells_for};
ghost use Rattle.con_machine.specs.Words.CellCalls.{read_rect, rect_told, read_run_units, read_run_words, wrote_rect, filled_units, filled_words, scrolled_cells, paired, sides_of};
ghost use Rattle.con_machine.specs.Rooms.{IsRectRoom, IsRun};

use crate::calls::cells;
use crate::parts::Parts;
use crate::rooms::rect_room::RectRoom;
use con_events::{Numbers, Reply, Words};
use con_grid::Grid;
use con_units::limits::MOST_ITEMS;
use con_units::{Attr, Cell, Code, Coord, OutOfMemory, Rect, Rows, Units};
use std::alloc::Global;

// How many columns or rows there are from one to another.
fn side(from: i16, to: i16) -> usize
    ensures is { result ≡ (if int_le from to then natural (to -ℤ from) + 1 else 0) }
    ensures small { result ≤ 65536 }
{
    if from <= to {
        (i32::from(to) - i32::from(from)) as usize + 1
    } else {
        0
    }
}

fn cell_count(rect: Rect) -> usize
    ensures { result ≡ cell_count rect }
{
    side(rect.left, rect.right) * side(rect.top, rect.bottom)
}

fn are_words(words: &Words, n: usize) -> bool
    ensures { result ≡ are_words words.now n }
{
    match words {
        Words::One(_) => true,
        Words::Each(list) => list.len() == n,
    }
}

// Whether there are as many units, and as many words, as a rectangle has cells.
fn are_cells(rect: Rect, units: &Units, words: &Words) -> bool
    ensures { result ≡ are_cells rect units.now words.now }
{
    units.len() == cell_count(rect) && are_words(words, units.len())
}

// Units in one word.
fn cells_in_one(alloc: Global, units: &[u16], word: u16) -> Result<Vec<Cell>, OutOfMemory>
    ensures { IfOk result (λ cells. cells.items ≡ map (λ u. cell_of u (plain word)) units.now) }
{
    let Ok(mut room) = Vec::with_capacity(alloc, units.len()) else {
        return Err(OutOfMemory);
    };
    let attr = Attr::of(word);
    for unit in units {
        room.push_reserved(Cell::new(*unit, attr));
    }
    Ok(room)
}

// Units, each in its word.
fn cells_in_each(alloc: Global, units: &[u16], words: &[u16]) -> Result<Vec<Cell>, OutOfMemory>
    requires { length words.now ≡ length units.now }
    ensures { IfOk result (λ cells. cells.items ≡ paired units.now words.now) }
{
    let Ok(mut room) = Vec::with_capacity(alloc, units.len()) else {
        return Err(OutOfMemory);
    };
    for i in 0..units.len() {
        room.push_reserved(Cell::new(units[i], Attr::of(words[i])));
    }
    Ok(room)
}

fn cells_for(alloc: Global, units: &Units, words: &Words) -> Result<Vec<Cell>, OutOfMemory>
    requires { are_words words.now (length units.now) ≡ true }
    ensures { IfOk result (λ cells. cells.items ≡ cells_for units.now words.now) }
{
    match words {
        Words::One(word) => cells_in_one(alloc, units.as_slice(), *word),
        Words::Each(list) => cells_in_each(alloc, units.as_slice(), list.as_slice()),
    }
}

/// The memory of a write over a rectangle. None where the call is refused.
pub(crate) fn rect_room(
    alloc: Global,
    rect: Rect,
    units: &Units,
    words: &Words,
) -> Result<Option<RectRoom>, OutOfMemory>
    ensures room { IfOk result (λ r. are_cells rect units.now words.now ≡ true → IsRectRoom r units.now words.now) }
{
    if !are_cells(rect, units, words) {
        return Ok(None);
    }
    let cells = cells_for(alloc, units, words)?;
    match Vec::with_capacity(alloc, 4) {
        Ok(sides) => Ok(Some(RectRoom { cells, sides })),
        Err(_) => Err(OutOfMemory),
    }
}

// The sides of a rectangle, in memory that is there.
fn sides(rect: Rect, room: Vec<i64>) -> Numbers
    requires empty { room.items ≡ [] }
    requires room { 4 ≤ vec_capacity room }
    ensures { result ≡ sides_of rect }
{
    let mut room = room;
    room.push_reserved(i64::from(rect.left));
    room.push_reserved(i64::from(rect.top));
    room.push_reserved(i64::from(rect.right));
    room.push_reserved(i64::from(rect.bottom));
    Numbers(room)
}

// What a read of a rectangle answers.
fn told_rect(alloc: Global, grid: &Grid, rect: Rect) -> Result<Reply, OutOfMemory>
    ensures { IfOk result (λ r. r ≡ rect_told grid.now rect) }
{
    let count = con_rects::used_count(grid, rect).min(MOST_ITEMS);
    let Ok(mut rows) = Vec::with_capacity(alloc, count) else {
        return Err(OutOfMemory);
    };
    match con_rects::read_rect(grid, rect, &mut rows) {
        Err(code) => Ok(Reply::Fail(code)),
        Ok(used) => Ok(Reply::Cells(used, Rows(rows))),
    }
}

// The cells of a run, in memory of their own.
fn run_cells(
    alloc: Global,
    grid: &Grid,
    from: Coord,
    n: u32,
) -> Result<Result<Vec<Cell>, Code>, OutOfMemory>
    ensures { IfOk result (λ r. IsRun r grid.now from n) }
{
    let count = con_rects::run_count(grid, from, n).min(MOST_ITEMS);
    let Ok(mut room) = Vec::with_capacity(alloc, count) else {
        return Err(OutOfMemory);
    };
    match con_rects::read_run(grid, from, n, &mut room) {
        Err(code) => Ok(Err(code)),
        Ok(_) => Ok(Ok(room)),
    }
}

fn units_in(alloc: Global, cells: &[Cell]) -> Result<Units, OutOfMemory>
    ensures { IfOk result (λ u. u ≡ map (λ g. g.unit) cells.now) }
{
    let Ok(mut room) = Vec::with_capacity(alloc, cells.len()) else {
        return Err(OutOfMemory);
    };
    for cell in cells {
        room.push_reserved(cell.unit());
    }
    Ok(Units(room))
}

fn words_in(alloc: Global, cells: &[Cell]) -> Result<Units, OutOfMemory>
    ensures { IfOk result (λ u. u ≡ map (λ g. g.attr.word) cells.now) }
{
    let Ok(mut room) = Vec::with_capacity(alloc, cells.len()) else {
        return Err(OutOfMemory);
    };
    for cell in cells {
        room.push_reserved(cell.attr().bits());
    }
    Ok(Units(room))
}

fn told_units(alloc: Global, grid: &Grid, from: Coord, n: u32) -> Result<Reply, OutOfMemory>
    ensures { IfOk result (λ r. r ≡ run_told grid.now from n (λ g. g.unit)) }
{
    match run_cells(alloc, grid, from, n)? {
        Err(code) => Ok(Reply::Fail(code)),
        Ok(cells) => Ok(Reply::Units(units_in(alloc, cells.as_slice())?)),
    }
}

fn told_words(alloc: Global, grid: &Grid, from: Coord, n: u32) -> Result<Reply, OutOfMemory>
    ensures { IfOk result (λ r. r ≡ run_told grid.now from n (λ g. g.attr.word)) }
{
    match run_cells(alloc, grid, from, n)? {
        Err(code) => Ok(Reply::Fail(code)),
        Ok(cells) => Ok(Reply::Units(words_in(alloc, cells.as_slice())?)),
    }
}

impl Parts {
    /// `ReadConsoleOutput`. 1816: more than 16,384 cells after clipping.
    pub(crate) fn told_rect(&self, p: u8, h: u32, rect: Rect) -> Result<Reply, OutOfMemory>
        ensures reply { IfOk result (λ r. r ≡ (read_rect self.now.state p h rect).reply) }
    {
        match self.output(p, h, 1) {
            Err(code) => Ok(Reply::Fail(code)),
            Ok(id) => told_rect(self.title.allocator(), self.screens.screen(id).grid(), rect),
        }
    }

    /// `ReadConsoleOutputCharacter`. 1816: more than 16,384 cells after clipping.
    pub(crate) fn told_run_units(
        &self,
        p: u8,
        h: u32,
        x: i16,
        y: i16,
        n: u32,
    ) -> Result<Reply, OutOfMemory>
        ensures reply { IfOk result (λ r. r ≡ (read_run_units self.now.state p h x y n).reply) }
    {
        match self.output(p, h, 1) {
            Err(code) => Ok(Reply::Fail(code)),
            Ok(id) => told_units(
                self.title.allocator(),
                self.screens.screen(id).grid(),
                Coord { x, y },
                n,
            ),
        }
    }

    /// `ReadConsoleOutputAttribute`. 1816: more than 16,384 cells after clipping.
    pub(crate) fn told_run_words(
        &self,
        p: u8,
        h: u32,
        x: i16,
        y: i16,
        n: u32,
    ) -> Result<Reply, OutOfMemory>
        ensures reply { IfOk result (λ r. r ≡ (read_run_words self.now.state p h x y n).reply) }
    {
        match self.output(p, h, 1) {
            Err(code) => Ok(Reply::Fail(code)),
            Ok(id) => told_words(
                self.title.allocator(),
                self.screens.screen(id).grid(),
                Coord { x, y },
                n,
            ),
        }
    }

    /// `WriteConsoleOutput`. 87: units or words not as many as the rectangle has cells; 1816: more than 16,384 cells after
    /// clipping.
    pub(crate) fn write_rect(
        &mut self,
        p: u8,
        h: u32,
        rect: Rect,
        units: &Units,
        words: &Words,
        room: Option<RectRoom>,
    ) -> Reply
        requires room { are_cells rect units.now words.now ≡ true → IsRectRoom room units.now words.now }
        ensures state { self.new.state ≡ (wrote_rect self.old.state p h rect units.now words.now).after }
        ensures reply { result ≡ (wrote_rect self.old.state p h rect units.now words.now).reply }
    {
        match self.output(p, h, 2) {
            Err(code) => Reply::Fail(code),
            Ok(id) => {
                if !are_cells(rect, units, words) {
                    return Reply::Fail(Code::BadArgument);
                }
                let Some(room) = room else { unreachable!() };
                let RectRoom { cells, sides: four } = room;
                match cells::write_rect(&mut self.screens, id, rect, cells.as_slice()) {
                    Err(code) => Reply::Fail(code),
                    Ok(used) => Reply::Numbers(sides(used, four)),
                }
            }
        }
    }

    /// `WriteConsoleOutputCharacter`. 1816: more than 16,384 cells after clipping.
    pub(crate) fn write_run_units(&mut self, p: u8, h: u32, x: i16, y: i16, units: &[u16]) -> Reply
        ensures state { self.new.state ≡ (wrote_run_units self.old.state p h x y units.now).after }
        ensures reply { result ≡ (wrote_run_units self.old.state p h x y units.now).reply }
    {
        match self.output(p, h, 2) {
            Err(code) => Reply::Fail(code),
            Ok(id) => match cells::write_units(&mut self.screens, id, Coord { x, y }, units) {
                Err(code) => Reply::Fail(code),
                Ok(count) => Reply::Number(count),
            },
        }
    }

    /// `WriteConsoleOutputAttribute`. 1816: more than 16,384 cells after clipping.
    pub(crate) fn write_run_words(&mut self, p: u8, h: u32, x: i16, y: i16, words: &[u16]) -> Reply
        ensures state { self.new.state ≡ (wrote_run_words self.old.state p h x y words.now).after }
        ensures reply { result ≡ (wrote_run_words self.old.state p h x y words.now).reply }
    {
        match self.output(p, h, 2) {
            Err(code) => Reply::Fail(code),
            Ok(id) => match cells::write_words(&mut self.screens, id, Coord { x, y }, words) {
                Err(code) => Reply::Fail(code),
                Ok(count) => Reply::Number(count),
            },
        }
    }

    /// `FillConsoleOutputCharacter`.
    pub(crate) fn fill_units(&mut self, p: u8, h: u32, x: i16, y: i16, n: u32, unit: u16) -> Reply
        ensures state { self.new.state ≡ (filled_units self.old.state p h x y n unit).after }
        ensures reply { result ≡ (filled_units self.old.state p h x y n unit).reply }
    {
        match self.output(p, h, 2) {
            Err(code) => Reply::Fail(code),
            Ok(id) => {
                let at = Coord { x, y };
                Reply::Number(cells::fill_units(&mut self.screens, id, at, n, unit))
            }
        }
    }

    /// `FillConsoleOutputAttribute`.
    pub(crate) fn fill_words(&mut self, p: u8, h: u32, x: i16, y: i16, n: u32, word: u16) -> Reply
        ensures state { self.new.state ≡ (filled_words self.old.state p h x y n word).after }
        ensures reply { result ≡ (filled_words self.old.state p h x y n word).reply }
    {
        match self.output(p, h, 2) {
            Err(code) => Reply::Fail(code),
            Ok(id) => {
                let at = Coord { x, y };
                Reply::Number(cells::fill_words(&mut self.screens, id, at, n, word))
            }
        }
    }

    /// `ScrollConsoleScreenBuffer`.
    pub(crate) fn scroll(
        &mut self,
        p: u8,
        h: u32,
        source: Rect,
        clip: Option<Rect>,
        dest: Coord,
        unit: u16,
        word: u16,
    ) -> Reply
        ensures state { self.new.state ≡ (scrolled_cells self.old.state p h source clip dest.x dest.y unit word).after }
        ensures reply { result ≡ (scrolled_cells self.old.state p h source clip dest.x dest.y unit word).reply }
    {
        match self.output(p, h, 2) {
            Err(code) => Reply::Fail(code),
            Ok(id) => {
                cells::scroll(&mut self.screens, id, source, clip, dest, unit, word);
                Reply::Done
            }
        }
    }
}

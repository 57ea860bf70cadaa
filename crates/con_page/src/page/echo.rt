//! A line that is edited.
ghost use Rattle.std.specs.Prelude.{◌≡◌, ℕ, ◌+◌, ◌*◌, ◌<◌, ◌≤◌, ◌^◌, length};
ghost use Rattle.con_units.specs.Natural.{natural};
ghost use Rattle.con_page.specs.Words.Page.{IsPage};
ghost use Rattle.con_page.specs.Echo as echo;
ghost use Rattle.con_page.specs.Words.Echo as echo_words;

use super::Page;
use crate::origin::Origin;

// A row as a number, 0 above row 0.
fn natural_of(row: i32) -> usize
    ensures value { result ≡ natural row }
    ensures small { result < 2 ^ 31 }
{
    if row < 0 { 0 } else { row as usize }
}

// How many rows a row lies above row 0.
fn rows_above(row: i32) -> usize
    ensures value { result ≡ echo.rows_above row }
    ensures small { result ≤ 2 ^ 31 }
{
    if row < 0 {
        row.unsigned_abs() as usize
    } else {
        0
    }
}

impl Page {
    // The origin as it is used: a buffer that became smaller may not reach it.
    pub(crate) fn origin_in(&self, origin: Origin) -> Origin
        requires { IsPage self.now }
        ensures origin { result ≡ echo.origin_in self.now origin }
        ensures column { result.x < self.now.grid.width }
        ensures row { natural result.y < self.now.grid.height }
    {
        let last = self.height() as i32 - 1;
        Origin {
            x: origin.x.min(self.width() as u16 - 1),
            y: if last < origin.y { last } else { origin.y },
        }
    }

    // The row of a place, 0 above row 0.
    pub(crate) fn row_of(&self, origin: Origin, place: usize) -> usize
        requires page { IsPage self.now }
        requires small { place < 2 ^ 16 }
        ensures row { result ≡ echo.row_of self.now origin place }
    {
        let rows = (origin.x as usize + place) / self.width();
        (natural_of(origin.y) + rows).saturating_sub(rows_above(origin.y))
    }

    // Scrolls so that a line of this length, and the place behind it, are in the buffer. Answers the origin after that.
    pub(crate) fn bring_in(&mut self, origin: Origin, end: usize) -> Origin
        requires page { IsPage self.old }
        requires column { origin.x < self.old.grid.width }
        requires row { natural origin.y < self.old.grid.height }
        requires small { end < 2 ^ 16 }
        ensures effect { self.new ≡ echo_words.scrolled self.old origin end }
        ensures origin { result ≡ echo_words.fallen self.old origin end }
        ensures page { IsPage self.new }
    {
        let height = self.height();
        let past = self.row_of(origin, end).saturating_sub(height - 1);
        if past == 0 {
            return origin;
        }
        self.rows_up(0, height, past);
        Origin {
            x: origin.x,
            y: origin.y - past as i32,
        }
    }

    // The places from `offset` on show units, and those behind them become blank.
    pub(crate) fn draw(&mut self, origin: Origin, offset: usize, units: &[u16], blanks: usize)
        requires page { IsPage self.old }
        requires small { (offset < 2 ^ 16) × (blanks < 2 ^ 16) }
        requires inside { natural origin.y * self.old.grid.width + origin.x + (offset + length units.now)
            < length self.old.grid.cells + echo.rows_above origin.y * self.old.grid.width }
        ensures effect { self.new ≡ echo.drawn_by self.old origin (echo_words.part_rule self.old offset units.now blanks) }
        ensures page { IsPage self.new }
    {
        let width = self.width();
        let count = self.grid.count();
        let start = natural_of(origin.y) * width + origin.x as usize + offset;
        let hidden = rows_above(origin.y) * width;
        let end = start + units.len();
        let skipped = hidden.saturating_sub(start).min(units.len());
        let attr = self.pen.attr();
        self.grid
            .put_units(start.saturating_sub(hidden), &units[skipped..], attr);
        self.erase(
            end.saturating_sub(hidden),
            (end + blanks).saturating_sub(hidden).min(count),
        );
    }

    // The cursor goes to a place, in the buffer.
    pub(crate) fn place_cursor(&mut self, origin: Origin, place: usize)
        requires page { IsPage self.old }
        requires small { place < 2 ^ 16 }
        ensures effect { self.new ≡ echo.cursor_at self.old origin place }
        ensures page { IsPage self.new }
    {
        let last = self.height() - 1;
        self.y = self.row_of(origin, place).min(last) as u16;
        self.x = ((origin.x as usize + place) % self.width()) as u16;
        self.late = false;
    }

    /// Shows a change of a line, and answers the origin for the next one.
    #[tactic(auto, unfolding(crate::specs::Echo::changed))]
    pub fn echo(
        &mut self,
        origin: Origin,
        offset: u16,
        units: &[u16],
        blanks: u16,
        caret: u16,
    ) -> Origin
        requires page { IsPage self.old }
        requires end { offset + length units.now < 2 ^ 16 }
        ensures effect { self.new ≡ echo.changed self.old origin (offset + length units.now) (echo_words.part_rule self.old offset units.now blanks) caret }
        ensures origin { result ≡ echo.origin_after self.old origin (offset + length units.now) }
        ensures page { IsPage self.new }
    {
        let at = self.origin_in(origin);
        let at = self.bring_in(at, offset as usize + units.len());
        self.draw(at, offset as usize, units, blanks as usize);
        self.place_cursor(at, caret as usize);
        self.show_cursor();
        at
    }

    /// Ends a line of this length.
    #[tactic(auto, unfolding(crate::specs::Echo::ended))]
    pub fn end_line(&mut self, origin: Origin, length: u16)
        requires page { IsPage self.old }
        ensures effect { self.new ≡ echo.ended self.old origin length }
        ensures page { IsPage self.new }
    {
        let at = self.origin_in(origin);
        self.place_cursor(at, length as usize);
        self.x = 0;
        self.down_in_buffer();
        self.show_cursor();
    }
}

//! Units that are printed.
ghost use Rattle.std.specs.Prelude.{◌≡◌, ℕ, ◌<◌, ◌≤◌, length, map, take, true, false};
ghost use Rattle.std.specs.List.{list_all};
ghost use Rattle.con_page.specs.Words.Page.{IsPage};
ghost use Rattle.con_page.specs.Print.{line_of as line_unit, wrapped, put, advanced, printed};
ghost use Rattle.con_units.specs.Plain.{is_plain};
ghost use Rattle.con_page.specs.Run.{drawn, is_printed, all_printed, CanRun, ran};

use super::Page;
use crate::front::{printable_front, printed_front};
use con_units::Cell;
use con_vtgram::is_plain as is_plain_unit;

#[tactic(auto, unfolding(crate::specs::Print::line_of))]
fn line_of(unit: u16) -> u16
    ensures { result ≡ line_unit unit }
{
    match unit {
        0x6A => 0x2518,
        0x6B => 0x2510,
        0x6C => 0x250C,
        0x6D => 0x2514,
        0x6E => 0x253C,
        0x71 => 0x2500,
        0x74 => 0x251C,
        0x75 => 0x2524,
        0x76 => 0x2534,
        0x77 => 0x252C,
        0x78 => 0x2502,
        _ => unit,
    }
}

// How many units are drawn at once.
const DRAWN: usize = 64;

// Writes for each unit the one that is drawn for it.
fn draw(units: &[u16], lines: &mut [u16; DRAWN])
    requires { length units.now ≤ 64 }
    ensures { take (length units.now) lines.new ≡ map line_unit units.now }
{
    for k in 0..units.len() {
        lines[k] = line_of(units[k]);
    }
}

impl Page {
    pub(crate) fn drawn(&self, unit: u16) -> u16
        requires { IsPage self.now }
        ensures { result ≡ drawn self.now unit }
    {
        if self.drawing { line_of(unit) } else { unit }
    }

    #[tactic(auto, unfolding(crate::specs::Print::wrapped))]
    pub(crate) fn wrap(&mut self)
        requires page { IsPage self.old }
        ensures effect { self.new ≡ wrapped self.old }
        ensures page { IsPage self.new }
    {
        if self.late {
            self.x = 0;
            self.late = false;
            self.down();
        }
    }

    #[tactic(auto, unfolding(crate::specs::Print::put))]
    pub(crate) fn put(&mut self, unit: u16)
        requires page { IsPage self.old }
        ensures effect { self.new ≡ put unit self.old }
        ensures page { IsPage self.new }
    {
        let at = self.place();
        let cell = Cell::new(self.drawn(unit), self.pen.attr());
        self.grid.put(at, cell);
    }

    #[tactic(auto, unfolding(crate::specs::Print::advanced))]
    pub(crate) fn advance(&mut self)
        requires page { IsPage self.old }
        ensures effect { self.new ≡ advanced self.old }
        ensures page { IsPage self.new }
    {
        if (self.x as usize) + 1 < self.width() {
            self.x += 1;
        } else if self.mode.wrap {
            if self.mode.keeps_column {
                self.late = true;
            } else {
                self.x = 0;
                self.down();
            }
        }
    }

    #[tactic(auto, unfolding(crate::specs::Print::printed))]
    pub(crate) fn print(&mut self, unit: u16)
        requires page { IsPage self.old }
        ensures effect { self.new ≡ printed unit self.old }
        ensures page { IsPage self.new }
    {
        self.wrap();
        self.put(unit);
        self.advance();
    }

    // How many printed units can be written at once from the cursor on.
    fn run_room(&self) -> usize
        requires { IsPage self.now }
        ensures { (n : ℕ) → 0 < n → n ≤ result → CanRun self.now n }
    {
        let x = self.x as usize;
        let left = self.left as usize;
        let top = self.top as usize;
        let y = self.y as usize;
        if self.late || x < left || y < top || top + self.h as usize <= y {
            return 0;
        }
        let end = self.width().min(left + self.w as usize);
        if end <= x + 1 { 0 } else { end - x - 1 }
    }

    // Writes units of printable ASCII from the cursor on, as they are.
    fn write_plain(&mut self, units: &[u16])
        requires page { IsPage self.old }
        requires given { CanRun self.old (length units.now) }
        requires plain { list_all is_plain units.now ≡ true }
        ensures effect { self.new ≡ ran self.old units.now }
        ensures page { IsPage self.new }
    {
        let at = self.place();
        let attr = self.pen.attr();
        self.grid.put_plain(at, units, attr);
        self.x += units.len() as u16;
    }

    // Writes units from the cursor on, as they are.
    fn write_any(&mut self, units: &[u16])
        requires page { IsPage self.old }
        requires given { CanRun self.old (length units.now) }
        ensures effect { self.new ≡ ran self.old units.now }
        ensures page { IsPage self.new }
    {
        let at = self.place();
        let attr = self.pen.attr();
        self.grid.put_units(at, units, attr);
        self.x += units.len() as u16;
    }

    // Prints units of printable ASCII at the front.
    fn print_plain(&mut self, units: &[u16]) -> usize
        requires page { IsPage self.old }
        requires given { self.old.drawing ≡ false }
        ensures page { IsPage self.new }
        ensures count { result ≤ length units.now }
        ensures all { list_all is_printed (take result units.now) ≡ true }
        ensures effect { self.new ≡ all_printed self.old (take result units.now) }
    {
        let n = printable_front(units, self.run_room());
        if n == 0 {
            return 0;
        }
        self.write_plain(&units[..n]);
        n
    }

    // Writes what is drawn for units from the cursor on.
    fn write_lines(&mut self, units: &[u16])
        requires page { IsPage self.old }
        requires few { length units.now ≤ 64 }
        requires given { CanRun self.old (length units.now) }
        ensures effect { self.new ≡ ran self.old (map line_unit units.now) }
        ensures page { IsPage self.new }
    {
        let mut lines = [0; DRAWN];
        draw(units, &mut lines);
        self.write_any(&lines[..units.len()]);
    }

    // Prints units at the front that are no controls, so many at most as are drawn at once.
    #[inline(never)]
    fn print_any(&mut self, units: &[u16]) -> usize
        requires page { IsPage self.old }
        ensures page { IsPage self.new }
        ensures count { result ≤ length units.now }
        ensures all { list_all is_printed (take result units.now) ≡ true }
        ensures effect { self.new ≡ all_printed self.old (take result units.now) }
    {
        let n = printed_front(units, self.run_room().min(DRAWN));
        if n == 0 {
            return 0;
        }
        if self.drawing {
            self.write_lines(&units[..n]);
            return n;
        }
        self.write_any(&units[..n]);
        n
    }

    /// Prints units at the front that end before the row does, and tells how many.
    pub fn print_run(&mut self, units: &[u16]) -> usize
        requires page { IsPage self.old }
        requires some { 0 < length units.now }
        ensures page { IsPage self.new }
        ensures count { result ≤ length units.now }
        ensures all { list_all is_printed (take result units.now) ≡ true }
        ensures effect { self.new ≡ all_printed self.old (take result units.now) }
    {
        if self.drawing {
            return self.print_any(units);
        }
        if is_plain_unit(units[0]) {
            return self.print_plain(units);
        }
        self.print_any(units)
    }
}

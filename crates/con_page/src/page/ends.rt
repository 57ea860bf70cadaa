//! Line feeds and carriage returns that act at once.
ghost use Rattle.std.specs.Prelude.{◌≡◌, ◌<◌, ◌≤◌, true, length, take};
ghost use Rattle.std.specs.List.{list_all};
ghost use Rattle.con_page.specs.Words.Page.{IsPage};
ghost use Rattle.con_page.specs.Ends as specs;
ghost use Rattle.con_page.specs.Ends.{CanEnd, is_end, all_ended, fed, ended};

use super::Page;
use crate::ends::{Ends, ends_at_front};

fn goes_back(keeps_column: bool, ends: Ends) -> bool
    ensures { result ≡ specs.goes_back keeps_column ends.count ends.feeds }
{
    if keeps_column {
        ends.feeds < ends.count
    } else {
        0 < ends.count
    }
}

impl Page {
    // Whether several of them act as they do one by one: they act, there are no margins, and the window shows the cursor.
    fn can_end(&self) -> bool
        requires { IsPage self.now }
        ensures { result ≡ true → CanEnd self.now }
    {
        let x = self.x as usize;
        let y = self.y as usize;
        let left = self.left as usize;
        let top = self.top as usize;
        if !self.mode.processed || self.margins.is_some() {
            return false;
        }
        left <= x && x < left + self.w as usize && top <= y && y < top + self.h as usize
    }

    // The cursor goes down by n rows; all rows go up by those that are not there.
    fn feed(&mut self, n: usize)
        requires page { IsPage self.old }
        ensures effect { self.new ≡ fed self.old n }
        ensures page { IsPage self.new }
    {
        let height = self.height();
        let room = height - 1 - self.y as usize;
        if n <= room {
            self.y += n as u16;
            self.late = false;
            return;
        }
        self.rows_up(0, height, (n - room).min(height));
        self.y = (height - 1) as u16;
        self.late = false;
    }

    // So many of them, of which some are line feeds.
    #[tactic(auto, unfolding(crate::specs::Ends::ended))]
    fn end(&mut self, ends: Ends)
        requires page { IsPage self.old }
        ensures effect { self.new ≡ ended self.old ends.count ends.feeds }
        ensures page { IsPage self.new }
    {
        if goes_back(self.mode.keeps_column, ends) {
            self.x = 0;
        }
        self.feed(ends.feeds);
        self.show_cursor();
    }

    /// Those at the front act, where several may at once. Tells how many.
    #[inline(never)]
    pub fn end_rows(&mut self, units: &[u16]) -> usize
        requires page { IsPage self.old }
        ensures page { IsPage self.new }
        ensures count { result ≤ length units.now }
        ensures acting { 0 < result → self.old.mode.processed ≡ true }
        ensures all { list_all is_end (take result units.now) ≡ true }
        ensures effect { self.new ≡ all_ended self.old (take result units.now) }
    {
        if !self.can_end() {
            return 0;
        }
        let ends = ends_at_front(units);
        if ends.count == 0 {
            return 0;
        }
        self.end(ends);
        ends.count
    }
}

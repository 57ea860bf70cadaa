//! Sequences that erase, insert, delete and scroll.
ghost use Rattle.std.specs.Prelude.{◌≡◌, ◌≤◌, length};
ghost use Rattle.con_page.specs.Page.{row_end, rows_down, region_first, region_end};
ghost use Rattle.con_page.specs.Words.Page.{IsPage};
ghost use Rattle.con_page.specs.Effect as now;
ghost use Rattle.con_page.specs.Kinds as kinds;

use super::Page;
use con_vtgram::Csi;

impl Page {
    // The place where the window's rows begin, and the one behind them.
    pub(crate) fn window_start(&self) -> usize
        requires { IsPage self.now }
        ensures start { result ≡ kinds.window_start self.now }
        ensures order { result ≤ kinds.window_end self.now }
    {
        self.top as usize * self.width()
    }

    pub(crate) fn window_end(&self) -> usize
        requires { IsPage self.now }
        ensures end { result ≡ kinds.window_end self.now }
        ensures inside { result ≤ length self.now.grid.cells }
    {
        (self.top as usize + self.h as usize) * self.width()
    }

    // ED and EL: of the cells from one place up to another those from the cursor on, up to it, or all.
    #[tactic(auto, unfolding(crate::specs::Effect::part_erased))]
    pub(crate) fn erase_part(&mut self, start: usize, end: usize, how: u16)
        requires page { IsPage self.old }
        requires order { start ≤ end }
        requires inside { end ≤ length self.old.grid.cells }
        ensures effect { self.new ≡ now.part_erased self.old start end how }
        ensures page { IsPage self.new }
    {
        let at = self.place();
        match how {
            0 => self.erase(at.min(end).max(start), end),
            1 => self.erase(start, (at + 1).min(end).max(start)),
            2 => self.erase(start, end),
            _ => {}
        }
    }

    pub(crate) fn erase_display(&mut self, how: u16)
        requires page { IsPage self.old }
        ensures effect { self.new ≡ now.part_erased self.old (kinds.window_start self.old) (kinds.window_end self.old) how }
        ensures page { IsPage self.new }
    {
        let start = self.window_start();
        let end = self.window_end();
        self.erase_part(start, end, how);
    }

    pub(crate) fn erase_line(&mut self, how: u16)
        requires page { IsPage self.old }
        ensures effect { self.new ≡ now.part_erased self.old (kinds.row_start self.old) (row_end self.old) how }
        ensures page { IsPage self.new }
    {
        let end = self.row_end();
        let start = end - self.width();
        self.erase_part(start, end, how);
    }

    pub(crate) fn erase_some(&mut self, n: u16)
        requires page { IsPage self.old }
        ensures effect { self.new ≡ kinds.some_erased self.old n }
        ensures page { IsPage self.new }
    {
        let at = self.place();
        let end = self.row_end();
        self.erase(at, (at + n as usize).min(end));
    }

    pub(crate) fn insert_cells(&mut self, n: u16)
        requires page { IsPage self.old }
        ensures effect { self.new ≡ kinds.inserted self.old n }
        ensures page { IsPage self.new }
    {
        let at = self.place();
        let end = self.row_end();
        let cell = self.blank();
        self.grid.lower(at, end, n as usize, cell);
    }

    pub(crate) fn delete_cells(&mut self, n: u16)
        requires page { IsPage self.old }
        ensures effect { self.new ≡ kinds.deleted self.old n }
        ensures page { IsPage self.new }
    {
        let at = self.place();
        let end = self.row_end();
        let cell = self.blank();
        self.grid.lift(at, end, n as usize, cell);
    }

    pub(crate) fn is_in_region(&self) -> bool
        requires { IsPage self.now }
        ensures { result ≡ now.is_in_region self.now }
    {
        self.region_first() <= self.y as usize && (self.y as usize) < self.region_end()
    }

    pub(crate) fn insert_lines(&mut self, n: u16)
        requires page { IsPage self.old }
        ensures effect { self.new ≡ kinds.lines_inserted self.old n }
        ensures page { IsPage self.new }
    {
        if self.is_in_region() {
            let end = self.region_end();
            let y = self.y as usize;
            self.rows_down(y, end, n as usize);
        }
    }

    pub(crate) fn delete_lines(&mut self, n: u16)
        requires page { IsPage self.old }
        ensures effect { self.new ≡ kinds.lines_deleted self.old n }
        ensures page { IsPage self.new }
    {
        if self.is_in_region() {
            let end = self.region_end();
            let y = self.y as usize;
            self.rows_up(y, end, n as usize);
        }
    }

    // The rows of the region go down.
    pub(crate) fn scroll_down(&mut self, n: u16)
        requires page { IsPage self.old }
        ensures effect { self.new ≡ rows_down self.old (region_first self.old) (region_end self.old) n }
        ensures page { IsPage self.new }
    {
        let first = self.region_first();
        let end = self.region_end();
        self.rows_down(first, end, n as usize);
    }

    // A sequence that changes cells, or sets something.
    #[tactic(auto, unfolding(crate::specs::Effect::edit))]
    pub(crate) fn edit(&mut self, csi: &Csi)
        requires page { IsPage self.old }
        ensures effect { self.new ≡ now.edit self.old csi.now }
        ensures page { IsPage self.new }
    {
        let how = csi.params[0];
        let n = how.max(1);
        match csi.last {
            // ICH, CSI @
            0x40 => self.insert_cells(n),
            // ED, CSI J
            0x4A => self.erase_display(how),
            // EL, CSI K
            0x4B => self.erase_line(how),
            // IL, CSI L
            0x4C => self.insert_lines(n),
            // DL, CSI M
            0x4D => self.delete_lines(n),
            // DCH, CSI P
            0x50 => self.delete_cells(n),
            // SU, CSI S
            0x53 => {
                let first = self.region_first();
                let end = self.region_end();
                self.rows_up(first, end, n as usize);
            }
            // SD, CSI T
            0x54 => self.scroll_down(n),
            // ECH, CSI X
            0x58 => self.erase_some(n),
            _ => self.set(csi),
        }
    }
}

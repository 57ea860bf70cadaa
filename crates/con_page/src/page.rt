//! A screen without its unfinished text.
ghost use Rattle.std.specs.Prelude.{IfOk, ◌≡◌, ℕ, ◌+◌, ◌<◌, ◌≤◌, ◌*◌, ◌^◌, None, length, true};
ghost use Rattle.con_page.specs.Page.{place, row_end, blank, erased, rows_up, rows_down, region_first, region_end, down, down_in, shown, least_shift};
ghost use Rattle.con_page.specs.Words.Page.{IsPage};
ghost use Rattle.con_page.specs.Effect as now;
ghost use Rattle.con_page.specs.Sides.{sides};
ghost use Rattle.con_page.specs.Setters.{new_page};
ghost use Rattle.con_page.specs.Kinds.{report_row, report_column};

mod alternate;
mod apply;
mod echo;
mod edit;
mod ends;
mod motion;
mod print;
mod resize;
pub mod sequence;
mod setters;

use crate::margins::Margins;
use crate::mode::Mode;
use crate::tabs::default_stops;
use con_grid::Grid;
use con_units::{Cell, OutOfMemory, Size};
use con_vtgram::pen::Pen;
use std::alloc::Global;
use std::marker::Model;

/// A screen, whose unfinished text stands elsewhere.
#[derive(Drop)]
pub struct Page {
    pub(crate) grid: Grid,
    pub(crate) x: u16,
    pub(crate) y: u16,
    pub(crate) visible: bool,
    pub(crate) cursor_size: u32,
    pub(crate) left: u16,
    pub(crate) top: u16,
    pub(crate) w: u16,
    pub(crate) h: u16,
    pub(crate) mode: Mode,
    pub(crate) pen: Pen,
    pub(crate) saved_x: u16,
    pub(crate) saved_y: u16,
    pub(crate) margins: Option<Margins>,
    pub(crate) tabs: Vec<bool>,
    pub(crate) drawing: bool,
    pub(crate) late: bool,
}

impl Model for Page {
    ghost use Rattle.con_page.specs.Page.{Page};

    ghost Value = { Page };

    ghost use Rattle.con_page.specs.PageView.{page_of};

    ghost view = { page_of };
}

// The first column or row of a window that is moved to show a place.
fn shifted(from: u16, size: u16, at: u16) -> u16
    requires window { from + size ≤ 2048 }
    requires place { at < 2048 }
    ensures { result ≡ least_shift from size at }
{
    if at < from {
        at
    } else if at < from + size {
        from
    } else {
        at + 1 - size
    }
}

fn clamp(low: u16, size: u16, n: u32) -> u16
    requires window { low + size ≤ 2048 }
    requires some { 0 < size }
    ensures { result ≡ now.clamp low size n }
{
    n.min(low as u32 + size as u32 - 1).max(low as u32) as u16
}

impl Page {
    ghost use Rattle.std.specs.Borrow.{sem};
    ghost use Rattle.con_page.specs.PageLending.{LendsGrid};

    pub(crate) fn width(&self) -> usize
        requires { IsPage self.now }
        ensures width { result ≡ self.now.grid.width }
    {
        self.grid.size().w as usize
    }

    pub(crate) fn height(&self) -> usize
        requires { IsPage self.now }
        ensures height { result ≡ self.now.grid.height }
    {
        self.grid.size().h as usize
    }

    pub(crate) fn place(&self) -> usize
        requires { IsPage self.now }
        ensures place { result ≡ place self.now }
        ensures inside { result < length self.now.grid.cells }
        ensures small { result < 2 ^ 20 }
    {
        self.y as usize * self.width() + self.x as usize
    }

    pub(crate) fn row_end(&self) -> usize
        requires { IsPage self.now }
        ensures end { result ≡ row_end self.now }
        ensures inside { result ≤ length self.now.grid.cells }
        ensures here { place self.now < result }
    {
        self.y as usize * self.width() + self.width()
    }

    pub(crate) fn blank(&self) -> Cell
        requires { IsPage self.now }
        ensures { result ≡ blank self.now }
    {
        Cell::new(0x20, self.pen.attr())
    }

    pub(crate) fn erase(&mut self, from: usize, upto: usize)
        requires page { IsPage self.old }
        requires order { from ≤ upto }
        requires inside { upto ≤ length self.old.grid.cells }
        ensures effect { self.new ≡ erased self.old from upto }
        ensures page { IsPage self.new }
    {
        let cell = self.blank();
        self.grid.fill(from, upto, cell);
    }

    pub(crate) fn rows_up(&mut self, first: usize, end: usize, n: usize)
        requires page { IsPage self.old }
        requires order { first ≤ end }
        requires inside { end ≤ self.old.grid.height }
        requires small { n < 2 ^ 16 }
        ensures effect { self.new ≡ rows_up self.old first end n }
        ensures page { IsPage self.new }
    {
        let cell = self.blank();
        let width = self.width();
        self.grid.lift(first * width, end * width, n * width, cell);
    }

    pub(crate) fn rows_down(&mut self, first: usize, end: usize, n: usize)
        requires page { IsPage self.old }
        requires order { first ≤ end }
        requires inside { end ≤ self.old.grid.height }
        requires small { n < 2 ^ 16 }
        ensures effect { self.new ≡ rows_down self.old first end n }
        ensures page { IsPage self.new }
    {
        let cell = self.blank();
        let width = self.width();
        self.grid.lower(first * width, end * width, n * width, cell);
    }

    // The region's first row.
    pub(crate) fn region_first(&self) -> usize
        requires { IsPage self.now }
        ensures first { result ≡ region_first self.now }
        ensures order { result < region_end self.now }
    {
        match self.margins {
            None => self.top as usize,
            Some(margins) => self.top as usize + margins.top as usize - 1,
        }
    }

    // The row behind the region's last one.
    pub(crate) fn region_end(&self) -> usize
        requires { IsPage self.now }
        ensures end { result ≡ region_end self.now }
        ensures inside { result ≤ self.now.grid.height }
        ensures small { result ≤ 2048 }
    {
        match self.margins {
            None => self.top as usize + self.h as usize,
            Some(margins) => self.top as usize + margins.bottom as usize,
        }
    }

    // The next row of the buffer, whatever the margins are.
    pub(crate) fn down_in_buffer(&mut self)
        requires page { IsPage self.old }
        ensures effect { self.new ≡ down_in self.old None }
        ensures page { IsPage self.new }
    {
        let height = self.height();
        if self.y as usize + 1 == height {
            self.rows_up(0, height, 1);
        } else {
            self.y += 1;
        }
    }

    #[tactic(auto, unfolding(crate::specs::Page::down))]
    pub(crate) fn down(&mut self)
        requires page { IsPage self.old }
        ensures effect { self.new ≡ down self.old }
        ensures page { IsPage self.new }
    {
        match self.margins {
            None => self.down_in_buffer(),
            Some(margins) => {
                let end = self.top as usize + margins.bottom as usize;
                if self.y as usize + 1 == end {
                    let first = self.top as usize + margins.top as usize - 1;
                    self.rows_up(first, end, 1);
                } else if self.y as usize + 1 != self.height() {
                    self.y += 1;
                }
            }
        }
    }

    #[tactic(auto, unfolding(crate::specs::Page::shown))]
    pub(crate) fn show_cursor(&mut self)
        requires page { IsPage self.old }
        ensures effect { self.new ≡ shown self.old }
        ensures page { IsPage self.new }
        ensures sides { sides self.new ≡ sides self.old }
    {
        self.left = shifted(self.left, self.w, self.x);
        self.top = shifted(self.top, self.h, self.y);
    }

    pub(crate) fn row_to(&mut self, n: u32)
        requires page { IsPage self.old }
        ensures effect { self.new ≡ now.at_row self.old n }
        ensures page { IsPage self.new }
    {
        self.y = clamp(self.top, self.h, n);
        self.late = false;
    }

    pub(crate) fn column_to(&mut self, n: u32)
        requires page { IsPage self.old }
        ensures effect { self.new ≡ now.at_column self.old n }
        ensures page { IsPage self.new }
    {
        self.x = clamp(self.left, self.w, n);
        self.late = false;
    }

    /// The cursor's row in the window, from 1.
    pub fn report_row(&self) -> u16
        requires { IsPage self.now }
        ensures row { result ≡ report_row self.now }
        ensures small { result < 1000 }
    {
        clamp(self.top, self.h, self.y as u32) - self.top + 1
    }

    /// The cursor's column in the window, from 1.
    pub fn report_column(&self) -> u16
        requires { IsPage self.now }
        ensures column { result ≡ report_column self.now }
        ensures small { result < 1000 }
    {
        clamp(self.left, self.w, self.x as u32) - self.left + 1
    }

    /// Its output mode.
    pub fn mode(&self) -> Mode
        requires { IsPage self.now }
        ensures { result ≡ self.now.mode }
    {
        self.mode
    }

    /// A page of spaces.
    pub fn new(alloc: Global, buffer: Size, window: Size) -> Result<Page, OutOfMemory>
        requires some { (0 < window.w) × (0 < window.h) }
        requires inside { (window.w ≤ buffer.w) × (window.h ≤ buffer.h) }
        requires few { (buffer.w ≤ 512) × (buffer.h ≤ 2048) × (window.h ≤ 256) }
        ensures page { IfOk result (λ b. b ≡ new_page buffer window) }
        ensures bounds { IfOk result (λ b. IsPage b) }
    {
        let pen = Pen::starting();
        let Ok(tabs) = default_stops(alloc, buffer.w as usize) else {
            return Err(OutOfMemory);
        };
        let grid = Grid::new(alloc, buffer, Cell::new(0x20, pen.attr()))?;
        Ok(Page {
            grid,
            x: 0,
            y: 0,
            visible: true,
            cursor_size: 25,
            left: 0,
            top: 0,
            w: window.w,
            h: window.h,
            mode: Mode::of(3),
            pen,
            saved_x: 0,
            saved_y: 0,
            margins: None,
            tabs,
            drawing: false,
            late: false,
        })
    }

    /// Its cells.
    pub fn grid_mut(&mut self) -> &mut Grid
        ensures* lends { sem 𝓛 (LendsGrid self.entry result) }
        ensures grid { result.now ≡ self.old.grid }
    {
        &mut self.grid
    }
}

//! What sets a part of a page, and what there is to know of it.
ghost use Rattle.std.specs.Prelude.{◌≡◌, ℕ, ◌+◌, ◌<◌, ◌≤◌, IfOk, IfErr, IfSome, IfNone, OnOk, ◌⊎◌, pos, ◌≤ℤ◌, false};
ghost use Rattle.con_units.specs.Attr.{plain};
ghost use Rattle.con_units.specs.Natural.{natural};
ghost use Rattle.con_units.specs.declared.code.Code.TheVariants.{BadArgument};
ghost use Rattle.con_grid.specs.Words.Picture.{IsInside};
ghost use Rattle.con_page.specs.Page.{attr};
ghost use Rattle.con_page.specs.Words.Page.{IsPage};
ghost use Rattle.con_page.specs.Setters.{cursor_set, origin_set, pen_of_word, info_of};
ghost use Rattle.con_page.specs.Words.Setters.{IsOrigin};
ghost use Rattle.con_page.specs.Words.Fit.{AreSizes, IsFit};

use super::Page;
use crate::fit::Fit;
use crate::info::Info;
use crate::mode::Mode;
use crate::tabs::default_stops;
use con_grid::Grid;
use con_units::{Code, Coord, OutOfMemory, Rect, Shade, Size};
use con_vtgram::pen::Pen;

// A coordinate at which a side of this length stays below an end.
fn index_in(coordinate: i16, side: usize, end: usize) -> Option<u16>
    requires { end ≤ 2048 }
    ensures some { IfSome result (λ n. (pos 0 ≤ℤ coordinate) × (n ≡ natural coordinate) × (n + side ≤ end)) }
    ensures none { IfNone result ((pos 0 ≤ℤ coordinate) → natural coordinate + side ≤ end → ⊥) }
{
    if coordinate < 0 {
        return None;
    }
    let n = coordinate as u16;
    if side <= end && n as usize <= end - side {
        Some(n)
    } else {
        None
    }
}

impl Page {
    /// Moves the cursor. Only a place outside the buffer is refused.
    pub fn set_cursor(&mut self, at: Coord) -> Result<(), Code>
        requires { IsPage self.old }
        ensures moved { OnOk result (IsInside self.old.grid at × (self.new ≡ cursor_set self.old (natural at.x) (natural at.y))) }
        ensures refused { IfErr result (λ e. (e ≡ BadArgument) × (¬ IsInside self.old.grid at) × (self.new ≡ self.old)) }
        ensures page { IsPage self.new }
    {
        let size = self.grid.size();
        let (Some(x), Some(y)) = (
            index_in(at.x, 1, size.w as usize),
            index_in(at.y, 1, size.h as usize),
        ) else {
            return Err(Code::BadArgument);
        };
        self.x = x;
        self.y = y;
        self.late = false;
        self.show_cursor();
        Ok(())
    }

    /// Moves the window. Only a window that would leave the buffer is refused.
    pub fn set_window_origin(&mut self, at: Coord) -> Result<(), Code>
        requires { IsPage self.old }
        ensures moved { OnOk result (IsOrigin self.old at × (self.new ≡ origin_set self.old (natural at.x) (natural at.y))) }
        ensures refused { IfErr result (λ e. (e ≡ BadArgument) × (¬ IsOrigin self.old at) × (self.new ≡ self.old)) }
        ensures page { IsPage self.new }
    {
        let size = self.grid.size();
        let (Some(x), Some(y)) = (
            index_in(at.x, self.w as usize, size.w as usize),
            index_in(at.y, self.h as usize, size.h as usize),
        ) else {
            return Err(Code::BadArgument);
        };
        self.left = x;
        self.top = y;
        Ok(())
    }

    /// Sets the pen from an attribute word, with plain shades and without bold.
    pub fn set_attr(&mut self, word: u16)
        requires { IsPage self.old }
        ensures pen { self.new ≡ record self.old { pen = pen_of_word word } }
        ensures attr { attr self.new ≡ plain word }
        ensures page { IsPage self.new }
    {
        self.pen = Pen {
            foreground: (word % 16) as u8,
            background: (word / 16 % 16) as u8,
            fore: Shade::Plain,
            back: Shade::Plain,
            bold: false,
            underline: word / 0x8000 % 2 == 1,
            negative: word / 0x4000 % 2 == 1,
        };
    }

    /// Sets the output mode; a wrap that was due is not any more.
    pub fn set_mode(&mut self, mode: Mode)
        requires { IsPage self.old }
        ensures mode { self.new ≡ record self.old { mode = mode; late = false } }
        ensures page { IsPage self.new }
    {
        self.mode = mode;
        self.late = false;
    }

    /// Takes the output mode of another page; nothing else changes.
    pub fn take_mode(&mut self, other: &Page)
        requires page { IsPage self.old }
        requires other { IsPage other.now }
        ensures mode { self.new ≡ record self.old { mode = other.now.mode } }
        ensures page { IsPage self.new }
    {
        self.mode = other.mode;
    }

    /// Sets the cursor's size and whether it is visible. Only a size of 0 or above 100 is refused.
    pub fn set_cursor_info(&mut self, size: u32, visible: bool) -> Result<(), Code>
        requires { IsPage self.old }
        ensures set { OnOk result ((0 < size) × (size ≤ 100) × (self.new ≡ record self.old { cursor_size = size; visible = visible })) }
        ensures refused { IfErr result (λ e. (e ≡ BadArgument) × ((size ≡ 0) ⊎ (100 < size)) × (self.new ≡ self.old)) }
        ensures page { IsPage self.new }
    {
        if size == 0 || 100 < size {
            return Err(Code::BadArgument);
        }
        self.cursor_size = size;
        self.visible = visible;
        Ok(())
    }

    /// Takes the memory of a resize to these sizes of the buffer and the window.
    pub fn fit(&self, buffer: Size, window: Size) -> Result<Fit, OutOfMemory>
        requires page { IsPage self.now }
        requires sizes { AreSizes buffer window }
        ensures buffer { IfOk result (λ f. f.buffer ≡ buffer) }
        ensures window { IfOk result (λ f. f.window ≡ window) }
        ensures fit { IfOk result (λ f. IsFit self.now f) }
    {
        let Ok(tabs) = default_stops(*self.tabs.allocator(), buffer.w as usize) else {
            return Err(OutOfMemory);
        };
        let grid = self
            .grid
            .resized(buffer, self.lost_rows(buffer.h), self.blank())?;
        Ok(Fit {
            buffer,
            window,
            grid,
            tabs,
        })
    }

    /// What there is to know of it.
    pub fn info(&self) -> Info
        requires { IsPage self.now }
        ensures { result ≡ info_of self.now }
    {
        Info {
            buffer: self.grid.size(),
            cursor: Coord {
                x: self.x as i16,
                y: self.y as i16,
            },
            word: self.pen.attr().bits(),
            window: Rect {
                left: self.left as i16,
                top: self.top as i16,
                right: (self.left + self.w - 1) as i16,
                bottom: (self.top + self.h - 1) as i16,
            },
            mode: self.mode.number(),
            cursor_size: self.cursor_size,
            visible: self.visible,
        }
    }

    /// Its cells.
    pub fn grid(&self) -> &Grid
        ensures { result.now ≡ self.now.grid }
    {
        &self.grid
    }
}

//! A screen.
ghost use Rattle.std.specs.Prelude.{◌≡◌, ℕ, ◌+◌, ◌-◌, ◌<◌, ◌≤◌, true, false, [], length, take, None, IfOk, IfErr, OnOk, ◌⊎◌};
ghost use Rattle.con_units.specs.Natural.{natural};
ghost use Rattle.con_units.specs.declared.code.Code.TheVariants.{BadArgument};
ghost use Rattle.con_grid.specs.Words.Picture.{IsInside};
ghost use Rattle.con_screen.specs.Laws.{IsWrittenWhole, IsToldWithin};

mod alternate;
mod echo;

use crate::answers::Answers;
use crate::write::{has_sequences, write_some};
pub use alternate::is_switched_whole;
use con_grid::Grid;
use con_page::{Fit, Info, Mode, Page};
use con_units::{Code, Coord, OutOfMemory, Size};
use con_vtgram::{Splitter, completes_one_item};
pub use echo::{is_echoed_by_part, is_laid_row_by_row};
use std::alloc::Global;
use std::marker::Model;

/// A screen. Contracts see its page, and its unfinished text, of which the code keeps no unit but those of a title.
#[derive(Drop)]
pub struct Screen {
    page: Page,
    text: Splitter,
}

impl Model for Screen {
    ghost use Rattle.con_screen.specs.Screen.{Screen};

    ghost Value = { Screen };

    ghost use Rattle.con_screen.specs.ScreenView.{screen_of};

    ghost view = { screen_of };
}

impl Screen {
    ghost use Rattle.std.specs.Borrow.{sem};
    ghost use Rattle.con_screen.specs.ScreenLending.{LendsGrid};
    ghost use Rattle.con_units.specs.Attr.{plain};
    ghost use Rattle.con_page.specs.Page.{attr};
    ghost use Rattle.con_page.specs.Words.Page.{IsPage};
    ghost use Rattle.con_screen.specs.Written.{written, switches};
    ghost use Rattle.con_page.specs.Setters.{new_page, cursor_set, origin_set, pen_of_word, info_of};
    ghost use Rattle.con_page.specs.Words.Setters.{IsOrigin};
    ghost use Rattle.con_screen.specs.ModeSet.{mode_set};
    ghost use Rattle.con_page.specs.Fit.{refitted};
    ghost use Rattle.con_page.specs.Words.Fit.{AreSizes, IsFit};
    ghost use Rattle.con_page.specs.Sides.{sides};

    /// Writes units, up to the end of a sequence that switches to the alternate screen or back, and says how many.
    pub fn write(&mut self, units: &[u16], answers: &mut Answers) -> usize
        requires page { IsPage self.old.page }
        requires room { length units.now ≤ answers.old.room }
        ensures screen { self.new ≡ (written self.old answers.old.told (take result units.now)).screen }
        ensures told { answers.new ≡ record { told = (written self.old answers.old.told (take result units.now)).told; room = answers.old.room - result } }
        ensures count { result ≤ length units.now }
        ensures stops { result < length units.now → switches self.old (take result units.now) ≡ true }
        ensures first { switches self.old (take (result - 1) units.now) ≡ false }
        ensures page { IsPage self.new.page }
        ensures sides { sides self.new.page ≡ sides self.old.page }
    {
        let mut at = 0;
        while at < units.len() {
            let (n, switched) = write_some(&mut self.page, &mut self.text, &units[at..], answers);
            if switched {
                return at + n;
            }
            at += n;
        }
        at
    }

    /// A screen of spaces.
    pub fn new(alloc: Global, buffer: Size, window: Size) -> Result<Screen, OutOfMemory>
        requires some { (0 < window.w) × (0 < window.h) }
        requires inside { (window.w ≤ buffer.w) × (window.h ≤ buffer.h) }
        requires few { (buffer.w ≤ 512) × (buffer.h ≤ 2048) × (window.h ≤ 256) }
        ensures screen { IfOk result (λ s. s ≡ record { page = new_page buffer window; text = [] }) }
        ensures page { IfOk result (λ s. IsPage s.page) }
        ensures sides { IfOk result (λ s. sides s.page ≡ record { width = buffer.w; height = buffer.h; w = window.w; h = window.h; now = 0; moment = None }) }
    {
        Ok(Screen {
            page: Page::new(alloc, buffer, window)?,
            text: Splitter::new(alloc)?,
        })
    }

    /// Moves the cursor. Only a place outside the buffer is refused.
    #[tactic(auto, unfolding(con_page::specs::Page::shown))]
    pub fn set_cursor(&mut self, at: Coord) -> Result<(), Code>
        requires { IsPage self.old.page }
        ensures moved { OnOk result
            (IsInside self.old.page.grid at × (self.new ≡ record self.old { page = cursor_set self.old.page (natural at.x) (natural at.y) })) }
        ensures refused { IfErr result (λ e. (e ≡ BadArgument) × (¬ IsInside self.old.page.grid at) × (self.new ≡ self.old)) }
        ensures page { IsPage self.new.page }
        ensures sides { sides self.new.page ≡ sides self.old.page }
    {
        self.page.set_cursor(at)?;
        Ok(())
    }

    /// Moves the window. Only a window that would leave the buffer is refused.
    pub fn set_window_origin(&mut self, at: Coord) -> Result<(), Code>
        requires { IsPage self.old.page }
        ensures moved { OnOk result
            (IsOrigin self.old.page at × (self.new ≡ record self.old { page = origin_set self.old.page (natural at.x) (natural at.y) })) }
        ensures refused { IfErr result (λ e. (e ≡ BadArgument) × (¬ IsOrigin self.old.page at) × (self.new ≡ self.old)) }
        ensures page { IsPage self.new.page }
        ensures sides { sides self.new.page ≡ sides self.old.page }
    {
        self.page.set_window_origin(at)?;
        Ok(())
    }

    /// Sets the pen from an attribute word, with plain shades and without bold.
    pub fn set_attr(&mut self, word: u16)
        requires { IsPage self.old.page }
        ensures pen { self.new ≡ record self.old { page = record self.old.page { pen = pen_of_word word } } }
        ensures attr { attr self.new.page ≡ plain word }
        ensures page { IsPage self.new.page }
        ensures sides { sides self.new.page ≡ sides self.old.page }
    {
        self.page.set_attr(word);
    }

    /// Sets the output mode. Only a number above 15 is refused. Unfinished text goes where sequences do not act.
    pub fn set_mode(&mut self, mode: u32) -> Result<(), Code>
        requires { IsPage self.old.page }
        ensures set { OnOk result ((mode < 16) × (self.new ≡ mode_set self.old mode)) }
        ensures refused { IfErr result (λ e. (e ≡ BadArgument) × (16 ≤ mode) × (self.new ≡ self.old)) }
        ensures page { IsPage self.new.page }
        ensures sides { sides self.new.page ≡ sides self.old.page }
    {
        if 16 <= mode {
            return Err(Code::BadArgument);
        }
        let mode = Mode::of(mode);
        self.page.set_mode(mode);
        if !has_sequences(mode) {
            self.text.clear();
        }
        Ok(())
    }

    /// Sets the cursor's size and whether it is visible. Only a size of 0 or above 100 is refused.
    pub fn set_cursor_info(&mut self, size: u32, visible: bool) -> Result<(), Code>
        requires { IsPage self.old.page }
        ensures set { OnOk result
            ((0 < size) × (size ≤ 100) × (self.new ≡ record self.old { page = record self.old.page { cursor_size = size; visible = visible } })) }
        ensures refused { IfErr result (λ e. (e ≡ BadArgument) × ((size ≡ 0) ⊎ (100 < size)) × (self.new ≡ self.old)) }
        ensures page { IsPage self.new.page }
        ensures sides { sides self.new.page ≡ sides self.old.page }
    {
        self.page.set_cursor_info(size, visible)?;
        Ok(())
    }

    /// Takes the memory of a resize to these sizes of the buffer and the window.
    pub fn fit(&self, buffer: Size, window: Size) -> Result<Fit, OutOfMemory>
        requires page { IsPage self.now.page }
        requires sizes { AreSizes buffer window }
        ensures buffer { IfOk result (λ f. f.buffer ≡ buffer) }
        ensures window { IfOk result (λ f. f.window ≡ window) }
        ensures fit { IfOk result (λ f. IsFit self.now.page f) }
    {
        self.page.fit(buffer, window)
    }

    /// Resizes the buffer and the window. Where the height falls, as many rows go at the top as the cursor's row lies
    /// below the new last row, and the others at the bottom; new cells are spaces in the pen's attribute. The fit must have
    /// been made in this state.
    pub fn resize(&mut self, fit: Fit)
        requires page { IsPage self.old.page }
        requires fit { IsFit self.old.page fit }
        ensures screen { self.new ≡ record self.old { page = refitted self.old.page fit.buffer fit.window } }
        ensures page { IsPage self.new.page }
        ensures sides { sides self.new.page
            ≡ record { width = fit.buffer.w; height = fit.buffer.h; w = fit.window.w; h = fit.window.h; now = self.old.page.grid.now; moment = None } }
    {
        self.page.resize(fit);
    }

    /// What there is to know of it.
    pub fn info(&self) -> Info
        requires { IsPage self.now.page }
        ensures { result ≡ info_of self.now.page }
    {
        self.page.info()
    }

    /// Its cells, to be changed. Every later call needs that the grid has the size that it had.
    pub fn grid_mut(&mut self) -> &mut Grid
        ensures* lends { sem 𝓛 (LendsGrid self.entry result) }
        ensures grid { result.now ≡ self.old.page.grid }
    {
        self.page.grid_mut()
    }

    /// Its cells.
    pub fn grid(&self) -> &Grid
        ensures { result.now ≡ self.now.page.grid }
    {
        self.page.grid()
    }
}

/// However a text is cut, the screen and what is told are those of the whole.
pub fn is_written_whole()
    ensures { IsWrittenWhole }
{}

/// A unit tells at most ten units of reports, and a title has at most 255.
pub fn is_told_within()
    ensures { IsToldWithin }
{
    completes_one_item();
}

//! A buffer and a window of other sizes.
ghost use Rattle.std.specs.Prelude.{◌≡◌, None};
ghost use Rattle.con_units.specs.declared.place.Size.{Size as TheSize};
ghost use Rattle.con_page.specs.Words.Page.{IsPage};
ghost use Rattle.con_page.specs.Sides.{sides};
ghost use Rattle.con_page.specs.Fit.{refitted};
ghost use Rattle.con_page.specs.Words.Fit.{IsFit, lost_rows, moved_in};

use super::Page;
use crate::fit::Fit;

impl Page {
    // How many rows go at the top where the height becomes `height`.
    pub(crate) fn lost_rows(&self, height: u16) -> u16
        requires { IsPage self.now }
        ensures { result ≡ lost_rows self.now height }
    {
        let fewer = (self.height() as u16).saturating_sub(height);
        fewer.min(self.y.saturating_sub(height.saturating_sub(1)))
    }

    // All of a resize but that the window shows the cursor.
    pub(crate) fn take_fit(&mut self, fit: Fit)
        requires page { IsPage self.old }
        requires fit { IsFit self.old fit }
        ensures { self.new ≡ moved_in self.old fit.buffer fit.window }
    {
        let lost = self.lost_rows(fit.buffer.h);
        let as_wide = self.width() == fit.buffer.w as usize;
        let Fit {
            buffer,
            window,
            grid,
            tabs,
        } = fit;
        self.grid = grid;
        if !as_wide {
            self.tabs = tabs;
        }
        self.x = self.x.min(buffer.w - 1);
        self.y = (self.y - lost).min(buffer.h - 1);
        self.saved_x = self.saved_x.min(buffer.w - 1);
        self.saved_y = self.saved_y.saturating_sub(lost).min(buffer.h - 1);
        self.left = self.left.min(buffer.w - window.w);
        self.top = self.top.saturating_sub(lost).min(buffer.h - window.h);
        self.w = window.w;
        self.h = window.h;
        self.margins = None;
        self.late = false;
    }

    /// Resizes the buffer and the window.
    #[tactic(auto, unfolding(crate::specs::Fit::refitted))]
    pub fn resize(&mut self, fit: Fit)
        requires page { IsPage self.old }
        requires fit { IsFit self.old fit }
        ensures effect { self.new ≡ refitted self.old fit.buffer fit.window }
        ensures page { IsPage self.new }
        ensures sides { sides self.new
            ≡ record { width = fit.buffer.w; height = fit.buffer.h; w = fit.window.w; h = fit.window.h; now = self.old.grid.now; moment = None } }
    {
        self.take_fit(fit);
        self.show_cursor();
    }
}

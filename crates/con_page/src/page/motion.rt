//! Items that move the cursor.
ghost use Rattle.std.specs.Prelude.{◌≡◌};
ghost use Rattle.con_page.specs.Words.Page.{IsPage};
ghost use Rattle.con_page.specs.Effect as now;
ghost use Rattle.con_page.specs.Kinds as kinds;

use super::Page;
use crate::tabs::{stops_left, stops_right};
use con_vtgram::Csi;

impl Page {
    pub(crate) fn line_feed(&mut self)
        requires page { IsPage self.old }
        ensures effect { self.new ≡ kinds.line_feed self.old }
        ensures page { IsPage self.new }
    {
        if !self.mode.keeps_column {
            self.x = 0;
        }
        self.down();
        self.late = false;
    }

    #[tactic(auto, unfolding(crate::specs::Effect::control_effect))]
    pub(crate) fn control(&mut self, unit: u16)
        requires page { IsPage self.old }
        ensures effect { self.new ≡ now.control_effect self.old unit }
        ensures page { IsPage self.new }
    {
        match unit {
            // BS
            8 => {
                self.x = self.x.saturating_sub(1);
                self.late = false;
            }
            // HT
            9 => self.tab_right(1),
            // LF
            10 => self.line_feed(),
            // CR
            13 => {
                self.x = 0;
                self.late = false;
            }
            _ => {}
        }
    }

    // A control sequence without a ? and an intermediate.
    #[tactic(auto, unfolding(crate::specs::Effect::plain_effect))]
    pub(crate) fn plain(&mut self, csi: &Csi)
        requires page { IsPage self.old }
        ensures effect { self.new ≡ now.plain_effect self.old csi.now }
        ensures page { IsPage self.new }
    {
        let n = csi.params[0].max(1) as u32;
        let x = self.x as u32;
        let y = self.y as u32;
        let left = self.left as u32;
        let top = self.top as u32;
        match csi.last {
            // CUU, CSI A
            0x41 => self.row_to(y.saturating_sub(n)),
            // CUD, CSI B
            0x42 => self.row_to(y + n),
            // CUF, CSI C
            0x43 => self.column_to(x + n),
            // CUB, CSI D
            0x44 => self.column_to(x.saturating_sub(n)),
            // CNL, CSI E
            0x45 => {
                self.row_to(y + n);
                self.column_to(left);
            }
            // CPL, CSI F
            0x46 => {
                self.row_to(y.saturating_sub(n));
                self.column_to(left);
            }
            // CHA, CSI G
            0x47 => self.column_to(left + n - 1),
            // CHT, CSI I
            0x49 => self.tab_right(n),
            // CBT, CSI Z
            0x5A => self.tab_left(n),
            // VPA, CSI d
            0x64 => self.row_to(top + n - 1),
            // CUP, CSI H; HVP, CSI f
            0x48 | 0x66 => {
                self.row_to(top + n - 1);
                self.column_to(left + csi.params[1].max(1) as u32 - 1);
            }
            _ => self.edit(csi),
        }
    }

    pub(crate) fn tab_right(&mut self, n: u32)
        requires page { IsPage self.old }
        ensures effect { self.new ≡ kinds.tabbed_right self.old n }
        ensures page { IsPage self.new }
    {
        self.x = stops_right(self.tabs.as_slice(), self.x, n);
        self.late = false;
    }

    pub(crate) fn tab_left(&mut self, n: u32)
        requires page { IsPage self.old }
        ensures effect { self.new ≡ kinds.tabbed_left self.old n }
        ensures page { IsPage self.new }
    {
        self.x = stops_left(self.tabs.as_slice(), self.x, n);
        self.late = false;
    }

    pub(crate) fn save(&mut self)
        requires page { IsPage self.old }
        ensures effect { self.new ≡ now.saved self.old }
        ensures page { IsPage self.new }
    {
        self.saved_x = self.x;
        self.saved_y = self.y;
    }

    pub(crate) fn restore(&mut self)
        requires page { IsPage self.old }
        ensures effect { self.new ≡ now.restored self.old }
        ensures page { IsPage self.new }
    {
        self.x = self.saved_x;
        self.y = self.saved_y;
        self.late = false;
    }

    pub(crate) fn row_up(&mut self)
        requires page { IsPage self.old }
        ensures effect { self.new ≡ kinds.reversed self.old }
        ensures page { IsPage self.new }
    {
        self.late = false;
        if self.y as usize == self.region_first() {
            self.scroll_down(1);
        } else if self.top < self.y {
            self.y -= 1;
        }
    }
}

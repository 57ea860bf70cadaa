//! Sequences that set something, and all of them.
ghost use Rattle.std.specs.Prelude.{◌≡◌, ◌<◌, ◌==◌, slice_set, if◌then◌else◌};
ghost use Rattle.con_page.specs.Words.Page.{IsPage};
ghost use Rattle.con_page.specs.Effect as now;
ghost use Rattle.con_page.specs.Kinds as kinds;
ghost use Rattle.con_vtgram.specs.Sgr.{pen_of};

use super::Page;
use crate::margins::Margins;
use crate::tabs::clear;
use con_vtgram::Csi;
use con_vtgram::pen::{Pen, after_all};

fn is_region(h: u16, top: u16, bottom: u16) -> bool
    ensures { result ≡ kinds.is_region h top bottom }
{
    (top < bottom && bottom <= h) || (h == 1 && top == 1 && bottom == 1)
}

fn margins_of(h: u16, top: u16, bottom: u16) -> Option<Margins>
    ensures { result ≡ kinds.margins_of h top bottom }
{
    if top == 1 && bottom == h {
        None
    } else {
        Some(Margins { top, bottom })
    }
}

/// DECSTR, CSI ! p
pub fn is_reset(csi: &Csi) -> bool
    ensures { result ≡ now.is_reset csi.now }
{
    csi.inter == 0x21 && !csi.private && csi.last == 0x70
}

impl Page {
    pub(crate) fn set_tab(&mut self, on: bool)
        requires page { IsPage self.old }
        ensures effect { self.new ≡ record self.old { tabs = slice_set self.old.tabs self.old.x on } }
        ensures page { IsPage self.new }
    {
        let at = self.x as usize;
        self.tabs[at] = on;
    }

    pub(crate) fn clear_tabs(&mut self, how: u16)
        requires page { IsPage self.old }
        ensures effect { self.new ≡ kinds.tabs_cleared self.old how }
        ensures page { IsPage self.new }
    {
        match how {
            0 => self.set_tab(false),
            3 => clear(self.tabs.as_mut_slice()),
            _ => {}
        }
    }

    pub(crate) fn set_margins(&mut self, top: u16, bottom: u16)
        requires page { IsPage self.old }
        requires given { 0 < top }
        ensures effect { self.new ≡ now.with_margins self.old top bottom }
        ensures page { IsPage self.new }
    {
        if is_region(self.h, top, bottom) {
            self.margins = margins_of(self.h, top, bottom);
            self.x = self.left;
            self.y = self.top;
            self.late = false;
        }
    }

    pub(crate) fn set_pen(&mut self, csi: &Csi)
        requires page { IsPage self.old }
        ensures effect { self.new ≡ record self.old { pen = pen_of csi.now self.old.pen } }
        ensures page { IsPage self.new }
    {
        if csi.count == 0 {
            self.pen = Pen::starting();
        } else {
            self.pen = after_all(self.pen, &csi.params[..csi.count.min(16) as usize]);
        }
    }

    pub(crate) fn bottom_of(&self, bottom: u16) -> u16
        requires { IsPage self.now }
        ensures { result ≡ (if bottom == 0 then self.now.h else bottom) }
    {
        if bottom == 0 { self.h } else { bottom }
    }

    #[tactic(auto, unfolding(crate::specs::Effect::setting))]
    pub(crate) fn set(&mut self, csi: &Csi)
        requires page { IsPage self.old }
        ensures effect { self.new ≡ now.setting self.old csi.now }
        ensures page { IsPage self.new }
    {
        match csi.last {
            // TBC, CSI g
            0x67 => self.clear_tabs(csi.params[0]),
            // SGR, CSI m
            0x6D => self.set_pen(csi),
            // DECSTBM, CSI r
            0x72 => {
                let bottom = self.bottom_of(csi.params[1]);
                self.set_margins(csi.params[0].max(1), bottom);
            }
            // SCOSC, CSI s
            0x73 => {
                if csi.count == 0 {
                    self.save();
                }
            }
            // SCORC, CSI u
            0x75 => {
                if csi.count == 0 {
                    self.restore();
                }
            }
            _ => {}
        }
    }

    pub(crate) fn reset(&mut self)
        requires page { IsPage self.old }
        ensures effect { self.new ≡ kinds.reset self.old }
        ensures page { IsPage self.new }
    {
        self.visible = true;
        self.margins = None;
        self.drawing = false;
        self.pen = Pen::starting();
        self.saved_x = 0;
        self.saved_y = 0;
    }

    #[tactic(auto, unfolding(crate::specs::Effect::sequence_effect))]
    pub(crate) fn sequence(&mut self, csi: &Csi)
        requires page { IsPage self.old }
        ensures effect { self.new ≡ now.sequence_effect self.old csi.now }
        ensures page { IsPage self.new }
    {
        if is_reset(csi) {
            // DECSTR, CSI ! p
            self.reset();
        } else if csi.inter == 0 {
            if !csi.private {
                self.plain(csi);
            } else if csi.params[0] == 25 {
                // DECTCEM, CSI ? 25 h and CSI ? 25 l
                match csi.last {
                    0x68 => self.visible = true,
                    0x6C => self.visible = false,
                    _ => {}
                }
            }
        }
    }

    #[tactic(auto, unfolding(crate::specs::Effect::escape_effect))]
    pub(crate) fn escape(&mut self, unit: u16)
        requires page { IsPage self.old }
        ensures effect { self.new ≡ now.escape_effect self.old unit }
        ensures page { IsPage self.new }
    {
        match unit {
            // DECSC, ESC 7
            0x37 => self.save(),
            // DECRC, ESC 8
            0x38 => self.restore(),
            // HTS, ESC H
            0x48 => self.set_tab(true),
            // RI, ESC M
            0x4D => self.row_up(),
            _ => {}
        }
    }

    pub(crate) fn set_charset(&mut self, unit: u16)
        requires page { IsPage self.old }
        ensures effect { self.new ≡ kinds.charset_effect self.old unit }
        ensures page { IsPage self.new }
    {
        match unit {
            // SCS, ESC ( 0
            0x30 => self.drawing = true,
            // SCS, ESC ( B
            0x42 => self.drawing = false,
            _ => {}
        }
    }
}

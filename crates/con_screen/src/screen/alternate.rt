//! What the buffers of a console need of a screen: units up to a switch, and the alternate screen's beginning and end.
ghost use Rattle.std.specs.Prelude.{◌≡◌, ◌-◌, ◌<◌, ◌≤◌, true, length, take};
ghost use Rattle.con_page.specs.Words.Page.{IsPage};
ghost use Rattle.con_screen.specs.Written.{written, switches};
ghost use Rattle.con_page.specs.Sides.{sides};
ghost use Rattle.con_screen.specs.Alternate.{alternate_begun, mode_taken};
ghost use Rattle.con_screen.specs.Words.Alternate.{IsSwitchedWhole};

use crate::answers::Answers;
use crate::screen::Screen;
use crate::write::{has_sequences, write_some};

impl Screen {
    /// Writes some of the units, at least one, and says how many, and whether the last of them ended a sequence that
    /// switches to the alternate screen or back. Where it did, it was one.
    pub fn write_some(&mut self, units: &[u16], answers: &mut Answers) -> (usize, bool)
        requires page { IsPage self.old.page }
        requires some { 0 < length units.now }
        requires room { length units.now ≤ answers.old.room }
        ensures screen { self.new ≡ (written self.old answers.old.told (take result.0 units.now)).screen }
        ensures told { answers.new ≡ record { told = (written self.old answers.old.told (take result.0 units.now)).told; room = answers.old.room - result.0 } }
        ensures switch { result.1 ≡ switches self.old (take result.0 units.now) }
        ensures count { 0 < result.0 }
        ensures inside { result.0 ≤ length units.now }
        ensures one { result.1 ≡ true → result.0 ≡ 1 }
        ensures page { IsPage self.new.page }
        ensures sides { sides self.new.page ≡ sides self.old.page }
    {
        write_some(&mut self.page, &mut self.text, units, answers)
    }

    /// Becomes the alternate screen of a main one, as it is when it comes to be shown.
    pub fn begin_alternate(&mut self, main: &Screen)
        requires page { IsPage self.old.page }
        requires main { IsPage main.now.page }
        ensures screen { self.new ≡ alternate_begun self.old main.now }
        ensures page { IsPage self.new.page }
        ensures sides { sides self.new.page ≡ sides self.old.page }
    {
        self.page.begin_alternate(&main.page);
        self.text.clear();
    }

    /// Takes the mode of another screen. Unfinished text goes where sequences do not act; nothing else changes.
    pub fn take_mode(&mut self, other: &Screen)
        requires page { IsPage self.old.page }
        requires other { IsPage other.now.page }
        ensures screen { self.new ≡ mode_taken self.old other.now.page }
        ensures page { IsPage self.new.page }
        ensures sides { sides self.new.page ≡ sides self.old.page }
    {
        self.page.take_mode(&other.page);
        if !has_sequences(self.page.mode()) {
            self.text.clear();
        }
    }
}

/// However a text is cut, it switches where one of its parts does.
pub fn is_switched_whole()
    ensures { IsSwitchedWhole }
{}

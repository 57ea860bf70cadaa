//! One buffer.
ghost use Rattle.std.specs.Prelude.{◌≡◌, ℕ, ◌-◌, ◌+◌, ◌<◌, ◌≤◌, true, false, length, take, IfOk};
ghost use Rattle.con_page.specs.Words.Page.{IsPage};
ghost use Rattle.con_screens.specs.Buffer.{new_buffer, turned, written_on, buffer_written};
ghost use Rattle.con_screens.specs.Words.Buffer.{IsBuffer, alternate_on, alternate_off};
ghost use Rattle.con_screens.specs.Words.Stamps.{remembered};

use con_screen::{Answers, Screen, is_switched_whole, is_written_whole};
use con_units::{OutOfMemory, Size};
use std::alloc::Global;
use std::mem;

/// A buffer's two screens: the one that every call acts on, and the other one.
pub struct Buffer {
    pub shown: Screen,
    pub hidden: Screen,
    /// Whether the shown one is the alternate screen.
    pub alternate: bool,
    /// How many handles are counted.
    pub handles: u32,
    /// A number that no other buffer has or had.
    pub birth: u64,
}

// By hand, so that what drops one has this call in its proof, and not all that lies in one.
impl Drop for Buffer {
    fn drop(self) {
        let Buffer {
            shown: _,
            hidden: _,
            alternate: _,
            handles: _,
            birth: _,
        } = self;
    }
}

impl Buffer {
    ghost use Rattle.std.specs.Borrow.{sem};
    ghost use Rattle.con_screens.specs.Words.Lending.{LendsShown};

    pub(crate) fn new(
        alloc: Global,
        window: Size,
        handles: u32,
        birth: u64,
    ) -> Result<Buffer, OutOfMemory>
        requires some { (0 < window.w) × (0 < window.h) }
        requires few { (window.w ≤ 512) × (window.h ≤ 256) }
        ensures { IfOk result (λ b. b ≡ new_buffer window.w window.h handles birth) }
    {
        Ok(Buffer {
            shown: Screen::new(alloc, window, window)?,
            hidden: Screen::new(alloc, window, window)?,
            alternate: false,
            handles,
            birth,
        })
    }

    pub(crate) fn shown_mut(&mut self) -> &mut Screen
        ensures* lends { sem 𝓛 (LendsShown self.entry result) }
        ensures screen { result.now ≡ self.old.shown }
    {
        &mut self.shown
    }

    pub(crate) fn alternate_on(&mut self)
        requires shown { IsPage self.old.shown.page }
        requires hidden { IsPage self.old.hidden.page }
        ensures buffer { self.new ≡ alternate_on self.old }
        ensures shown_page { IsPage self.new.shown.page }
        ensures hidden_page { IsPage self.new.hidden.page }
        ensures kept { (w h births : ℕ) → IsBuffer w h births self.old → IsBuffer w h births self.new }
        ensures remembered { remembered self.new ≡ remembered self.old }
    {
        if !self.alternate {
            self.hidden.begin_alternate(&self.shown);
            mem::swap(&mut self.shown, &mut self.hidden);
            self.alternate = true;
        }
    }

    pub(crate) fn alternate_off(&mut self)
        requires shown { IsPage self.old.shown.page }
        requires hidden { IsPage self.old.hidden.page }
        ensures buffer { self.new ≡ alternate_off self.old }
        ensures shown_page { IsPage self.new.shown.page }
        ensures hidden_page { IsPage self.new.hidden.page }
        ensures kept { (w h births : ℕ) → IsBuffer w h births self.old → IsBuffer w h births self.new }
        ensures remembered { remembered self.new ≡ remembered self.old }
    {
        if self.alternate {
            self.hidden.take_mode(&self.shown);
            mem::swap(&mut self.shown, &mut self.hidden);
            self.alternate = false;
        }
    }

    fn turn(&mut self, on: Option<bool>)
        requires shown { IsPage self.old.shown.page }
        requires hidden { IsPage self.old.hidden.page }
        ensures buffer { self.new ≡ turned self.old on }
        ensures shown_page { IsPage self.new.shown.page }
        ensures hidden_page { IsPage self.new.hidden.page }
        ensures kept { (w h births : ℕ) → IsBuffer w h births self.old → IsBuffer w h births self.new }
        ensures remembered { remembered self.new ≡ remembered self.old }
    {
        match on {
            None => {}
            Some(on) => {
                if on {
                    self.alternate_on();
                } else {
                    self.alternate_off();
                }
            }
        }
    }

    // Writes some units, at least one, and shows the other screen where the last of them says so.
    fn write_some(&mut self, units: &[u16], answers: &mut Answers) -> usize
        requires shown { IsPage self.old.shown.page }
        requires hidden { IsPage self.old.hidden.page }
        requires some { 0 < length units.now }
        requires room { length units.now ≤ answers.old.room }
        ensures stage { written_on self.old answers.old.told (take result units.now) ≡ record { buffer = self.new; told = answers.new.told } }
        ensures spent { answers.new.room ≡ answers.old.room - result }
        ensures count { 0 < result }
        ensures inside { result ≤ length units.now }
        ensures shown_page { IsPage self.new.shown.page }
        ensures hidden_page { IsPage self.new.hidden.page }
        ensures kept { (w h births : ℕ) → IsBuffer w h births self.old → IsBuffer w h births self.new }
        ensures remembered { remembered self.new ≡ remembered self.old }
    {
        is_written_whole();
        is_switched_whole();
        let (n, switched) = self.shown.write_some(units, answers);
        if switched {
            self.turn(answers.alternate());
        }
        n
    }

    pub(crate) fn write(&mut self, units: &[u16], answers: &mut Answers)
        requires shown { IsPage self.old.shown.page }
        requires hidden { IsPage self.old.hidden.page }
        requires room { length units.now ≤ answers.old.room }
        ensures buffer { self.new ≡ buffer_written answers.old.told units.now self.old }
        ensures answers { answers.new ≡ record { told = (written_on self.old answers.old.told units.now).told; room = answers.old.room - length units.now } }
        ensures kept { (w h births : ℕ) → IsBuffer w h births self.old → IsBuffer w h births self.new }
        ensures remembered { remembered self.new ≡ remembered self.old }
    {
        let mut at = 0;
        while at < units.len() {
            at += self.write_some(&units[at..], answers);
        }
    }
}

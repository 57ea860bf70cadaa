//! Text that is written on a buffer.
ghost use Rattle.std.specs.Prelude.{◌≡◌, ◌≤◌, ◌*◌, length, List, unwrap_or, Option};
ghost use Rattle.con_units.specs.Limits.{most_items};
ghost use Rattle.con_handles.specs.declared.handle.Handle.{Handle};
ghost use Rattle.con_screen.specs.Told.{nothing_told};
ghost use Rattle.con_screens.specs.Buffer.{buffer_written, told_on};
ghost use Rattle.con_screens.specs.Buffers.{buffer_at, with_buffer};
ghost use Rattle.con_screens.specs.Words.Buffers.{AreBuffers, IsLive};
ghost use Rattle.con_screens.specs.Words.Stamps.{all_remembered};
ghost use Rattle.con_machine.specs.Words.ScreenCalls.{told_by, written_to, wrote};
ghost use Rattle.con_machine.specs.Sound.{AreCounted};

use crate::parts::Parts;
use crate::terminal::typing::store_units;
use crate::title::Title;
use con_events::Reply;
use con_screen::{Answers, is_told_within};
use con_screens::Screens;
use con_units::limits::MOST_ITEMS;
use con_units::{BufferId, Code};

// Writes units on a buffer.
fn write(screens: &mut Screens, id: BufferId, units: &[u16], answers: &mut Answers)
    requires buffers { AreBuffers screens.old }
    requires live { IsLive screens.old id.0 }
    requires nothing { answers.old.told ≡ nothing_told }
    requires room { length units.now ≤ answers.old.room }
    ensures buffers { screens.new ≡ with_buffer screens.old id.0 (buffer_written nothing_told units.now) }
    ensures told { answers.new.told ≡ told_on (buffer_at screens.old id.0) nothing_told units.now }
    ensures few { length answers.new.told.reports ≤ 10 * length units.now }
    ensures kept { AreBuffers screens.new }
    ensures counted { (hs : List Handle) → AreCounted screens.old hs → AreCounted screens.new hs }
    ensures remembered { all_remembered screens.new ≡ all_remembered screens.old }
{
    is_told_within();
    screens.write(id, units, answers);
}

// The title that a text set last, if it set one.
fn set_title(title: &mut Title, answers: &Answers)
    ensures { title.new ≡ unwrap_or answers.now.told.title title.old }
{
    if answers.titled() {
        title.set(answers.title());
    }
}

impl Parts {
    // What a text told: its reports are keys, and it may set the title and the cursor key mode.
    fn take_told(&mut self, answers: &Answers)
        requires { length answers.now.told.reports ≤ self.old.spare.records }
        ensures { self.new.state ≡ told_by self.old.state answers.now.told }
    {
        store_units(&mut self.records, answers.reports());
        set_title(&mut self.title, answers);
        self.cursor_keys = answers.cursor_keys().unwrap_or(self.cursor_keys);
    }

    // Writes units on a live buffer.
    fn write_on(&mut self, id: BufferId, units: &[u16], answers: &mut Answers)
        requires live { IsLive self.old.state.buffers id.0 }
        requires nothing { answers.old.told ≡ nothing_told }
        requires room { length units.now ≤ answers.old.room }
        requires records { 10 * length units.now ≤ self.old.spare.records }
        ensures { self.new.state ≡ written_to self.old.state id.0 units.now }
    {
        write(&mut self.screens, id, units, answers);
        self.take_told(answers);
    }

    /// `WriteConsole`. 1816: more than 16,384 units.
    pub(crate) fn write(&mut self, p: u8, h: u32, units: &[u16], answers: &mut Answers) -> Reply
        requires nothing { answers.old.told ≡ nothing_told }
        requires room { length units.now ≤ most_items → length units.now ≤ answers.old.room }
        requires records { length units.now ≤ most_items → 10 * length units.now ≤ self.old.spare.records }
        ensures state { self.new.state ≡ (wrote self.old.state p h units.now).after }
        ensures reply { result ≡ (wrote self.old.state p h units.now).reply }
    {
        match self.output(p, h, 2) {
            Err(code) => Reply::Fail(code),
            Ok(id) => {
                if MOST_ITEMS < units.len() {
                    return Reply::Fail(Code::Limit);
                }
                self.write_on(id, units, answers);
                Reply::Number(units.len() as u32)
            }
        }
    }
}

//! Sizes and requests from the terminal's side, and the end of what it sends.
ghost use Rattle.std.specs.Prelude.{◌≡◌, ◌<◌, true, List, IfOk};
ghost use Rattle.con_events.specs.Session.{is_size};
ghost use Rattle.con_handles.specs.declared.handle.Handle.{Handle};
ghost use Rattle.con_screens.specs.Words.Buffers.{AreBuffers};
ghost use Rattle.con_screens.specs.Resize.{all_resized};
ghost use Rattle.con_screens.specs.Words.Resize.{AreFits};
ghost use Rattle.con_machine.specs.Outcome.{has_bit};
ghost use Rattle.con_machine.specs.Sound.{AreCounted};
ghost use Rattle.con_machine.specs.Terminal.{resized};
ghost use Rattle.con_machine.specs.Words.Terminal.{asked, drained};

use crate::calls::screen_calls::has_bit;
use crate::calls::setters;
use crate::parts::Parts;
use con_records::Record;
use con_screens::{AllFits, Screens};
use con_units::{OutOfMemory, Size};

pub(crate) mod feeding;
pub(crate) mod pointing;
pub(crate) mod terminal_events;
pub(crate) mod typing;

// The window gets another size in every buffer.
fn resize_buffers(screens: &mut Screens, fits: AllFits)
    requires buffers { AreBuffers screens.old }
    requires fits { AreFits screens.old fits }
    ensures is { screens.new ≡ all_resized screens.old fits.window }
    ensures kept { AreBuffers screens.new }
    ensures counted { (hs : List Handle) → AreCounted screens.old hs → AreCounted screens.new hs }
{
    screens.resize_all(fits);
}

impl Parts {
    /// Takes the memory of a Resize: that of every buffer, and room for the size record. Nothing that is seen changes.
    pub(crate) fn resize_room(&mut self, size: Size) -> Result<AllFits, OutOfMemory>
        requires { is_size size ≡ true }
        ensures state { self.new.state ≡ self.old.state }
        ensures window { IfOk result (λ f. f.window ≡ size) }
        ensures fits { IfOk result (λ f. AreFits self.new.state.buffers f) }
        ensures record { IfOk result (λ f. 0 < self.new.spare.records) }
    {
        self.records.reserve(1)?;
        self.screens.resize_room(size)
    }

    /// Resize: the window gets another size in every buffer. In input mode 0x0008 the shown size of the active buffer is
    /// stored as a record.
    #[tactic(auto, unfolding(crate::specs::Terminal::resized))]
    pub(crate) fn resize(&mut self, fits: AllFits)
        requires fits { AreFits self.old.state.buffers fits }
        requires room { 0 < self.old.spare.records }
        ensures { self.new.state ≡ resized self.old.state fits.window }
    {
        resize_buffers(&mut self.screens, fits);
        self.seen = None;
        self.resized = true;
        if has_bit(self.mode, 8) {
            let info = setters::info(&self.screens, self.screens.active());
            self.records.append_reserved(Record::Size(info.buffer));
        }
    }

    /// Ask: a frame is asked for.
    pub(crate) fn ask(&mut self)
        ensures { self.new.state ≡ asked self.old.state }
    {
        self.asked = true;
    }

    /// Drained: no more comes from the link.
    pub(crate) fn drain(&mut self)
        ensures { self.new.state ≡ drained self.old.state }
    {
        self.drained = true;
    }
}

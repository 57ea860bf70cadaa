//! Events that are no client's: the terminal's side, and the painter.
ghost use Rattle.std.specs.Prelude.{◌≡◌, true, false, IfOk};
ghost use Rattle.con_machine.specs.Step.{is_clients, is_due, effect};
ghost use Rattle.con_machine.specs.Marks.{told, Tells};
ghost use Rattle.con_machine.specs.TerminalRooms.{IsSideRoom};

use crate::parts::Parts;
use crate::ready::is_size;
use crate::rooms::terminal_room::SideRoom::{self, Fits, Keys};
use crate::rooms::unused::done;
use con_events::{Event, Reply};
use con_units::OutOfMemory;

impl Parts {
    /// Takes the memory of an event that is no client's. Nothing that is seen changes.
    #[tactic(auto, unfolding(crate::specs::TerminalRooms::IsSideRoom))]
    pub fn terminal_room(&mut self, event: &Event) -> Result<SideRoom, OutOfMemory>
        ensures state { self.new.state ≡ self.old.state }
        ensures room { IfOk result (λ r. IsSideRoom self.new event.now r) }
    {
        match event {
            Event::Feed(bytes) => {
                let keys = self.feed_room(bytes.len())?;
                Ok(SideRoom::Keys(keys))
            }
            Event::Quiet => {
                let keys = self.feed_room(0)?;
                Ok(SideRoom::Keys(keys))
            }
            Event::Resize(size) => {
                if !is_size(*size) {
                    return Ok(SideRoom::Nothing);
                }
                let fits = self.resize_room(*size)?;
                Ok(SideRoom::Fits(fits))
            }
            Event::Paint => {
                let room = self.paint_room()?;
                Ok(SideRoom::Paint(room))
            }
            Event::Call(_) => Ok(SideRoom::Nothing),
            Event::Begin(_) => Ok(SideRoom::Nothing),
            Event::Collect => Ok(SideRoom::Nothing),
            Event::TakeCtrl => Ok(SideRoom::Nothing),
            Event::Exit(_) => Ok(SideRoom::Nothing),
            Event::Ask => Ok(SideRoom::Nothing),
            Event::Hangup => Ok(SideRoom::Nothing),
            Event::Drained => Ok(SideRoom::Nothing),
        }
    }

    /// An event that is no client's. A Paint answers the view, which rows may differ from the view at the last Paint, and
    /// whether it is for a terminal of a new size; the others are done.
    #[tactic(auto, unfolding(crate::specs::TerminalRooms::IsSideRoom, crate::specs::Step::effect, crate::specs::Step::is_due))]
    pub fn terminal(&mut self, event: &Event, room: SideRoom) -> Reply
        requires side { is_clients event.now ≡ false }
        requires due { is_due self.old.state 0 event.now ≡ true }
        requires room { IsSideRoom self.old event.now room }
        ensures state { self.new.state ≡ (effect self.old.state 0 event.now).after }
        ensures reply { told result ≡ (effect self.old.state 0 event.now).reply }
        ensures tells { Tells self.old.state event.now result }
    {
        match event {
            Event::Feed(bytes) => {
                let Keys(keys) = room else { unreachable!() };
                self.feed(bytes.as_slice(), keys);
                Reply::Done
            }
            Event::Quiet => {
                let Keys(keys) = room else { unreachable!() };
                self.quiet(keys);
                Reply::Done
            }
            Event::Resize(_) => {
                let Fits(fits) = room else { unreachable!() };
                self.resize(fits);
                Reply::Done
            }
            Event::Paint => {
                let SideRoom::Paint(room) = room else {
                    unreachable!()
                };
                self.paint(room)
            }
            Event::Ask => {
                self.ask();
                done(room)
            }
            Event::Hangup => {
                self.hang_up();
                done(room)
            }
            Event::Drained => {
                self.drain();
                done(room)
            }
            // a client's
            _ => unreachable!(),
        }
    }
}

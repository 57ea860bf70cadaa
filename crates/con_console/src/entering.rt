//! An event is entered.
ghost use Rattle.std.specs.Prelude.{◌≡◌, true, false, IfOk, IsSomeAnd};
ghost use Rattle.con_procs.specs.Procs.{is_attached};
ghost use Rattle.con_machine.specs.ClientRooms.{IsClientRoom};
ghost use Rattle.con_machine.specs.Closing.{closing};
ghost use Rattle.con_machine.specs.Fits.{Fits};
ghost use Rattle.con_machine.specs.Marks.{told, Tells};
ghost use Rattle.con_machine.specs.Serving.{settled_state};
ghost use Rattle.con_machine.specs.Step.{is_clients, is_due, effect, finished, step, is_ready};
ghost use Rattle.con_machine.specs.TerminalRooms.{IsSideRoom};

use crate::clients::client;
use crate::console::Console;
use con_events::{Actor, Event, Reply};
use con_machine::{ClientRoom, Parts, Room, SideRoom};
use con_units::{Code, OutOfMemory};

// Open reads are served, and then the console may close.
fn finish(parts: &mut Parts)
    ensures { parts.new.state ≡ closing (settled_state parts.old.state) }
{
    parts.settle();
    parts.close_if_idle();
}

// An event of an attached client.
fn enter_client(parts: &mut Parts, p: u8, event: &Event, room: ClientRoom) -> Reply
    requires attached { is_attached parts.old.state.procs p ≡ true }
    requires clients { is_clients event.now ≡ true }
    requires due { is_due parts.old.state p event.now ≡ true }
    requires room { IsClientRoom parts.old p event.now room }
    ensures state { parts.new.state ≡ (finished (effect parts.old.state p event.now)).after }
    ensures reply { result ≡ (effect parts.old.state p event.now).reply }
    ensures plain { told result ≡ (effect parts.old.state p event.now).reply }
{
    let mut room = room;
    let reply = client(parts, p, event, &mut room);
    drop(room);
    finish(parts);
    reply
}

// An event that is no client's.
fn enter_terminal(parts: &mut Parts, event: &Event, room: SideRoom) -> Reply
    requires side { is_clients event.now ≡ false }
    requires due { is_due parts.old.state 0 event.now ≡ true }
    requires room { IsSideRoom parts.old event.now room }
    ensures state { parts.new.state ≡ (finished (effect parts.old.state 0 event.now)).after }
    ensures reply { told result ≡ (effect parts.old.state 0 event.now).reply }
    ensures tells { Tells parts.old.state event.now result }
{
    let reply = parts.terminal(event, room);
    finish(parts);
    reply
}

impl Console {
    /// Takes all memory that an event needs, before it has its effect. The state stays as it was, also where there was no
    /// memory.
    #[tactic(auto, unfolding(con_machine::specs::Fits::Fits))]
    pub fn prepare(&mut self, actor: Actor, event: &Event) -> Result<Room, OutOfMemory>
        ensures state { self.new.state ≡ self.old.state }
        ensures room { IfOk result (λ room. Fits room self.new actor event.now) }
    {
        match actor {
            Actor::Client(p) => {
                if !self.attached(p) {
                    return Ok(Room::none());
                }
                Ok(Room::for_client(self.parts.client_room(p, event)?))
            }
            Actor::Terminal => Ok(Room::for_side(self.parts.terminal_room(event)?)),
            Actor::Painter => Ok(Room::for_side(self.parts.terminal_room(event)?)),
        }
    }

    /// Enters an event of an actor: the console steps, and the event is answered. It takes no memory but its room's, so it
    /// cannot fail. An event of a client that is not attached is refused (6) and changes nothing. A Paint answers beside
    /// the view which rows may differ from the view at the last Paint, and whether it is for a terminal of a new size.
    #[tactic(auto, unfolding(con_machine::specs::Fits::Fits, con_machine::specs::Step::is_ready, con_machine::specs::Step::step))]
    pub fn apply(&mut self, actor: Actor, event: &Event, room: Room) -> Reply
        requires ready { is_ready self.old.state actor event.now ≡ true }
        requires room { Fits room self.old actor event.now }
        ensures state { self.new.state ≡ (step self.old.state actor event.now).after }
        ensures client { is_clients event.now ≡ true → result ≡ (step self.old.state actor event.now).reply }
        ensures reply { told result ≡ (step self.old.state actor event.now).reply }
        ensures tells { Tells self.old.state event.now result }
    {
        match actor {
            Actor::Client(p) => {
                if !self.attached(p) {
                    drop(room);
                    return Reply::Fail(Code::BadHandle);
                }
                enter_client(&mut self.parts, p, event, room.of_client())
            }
            Actor::Terminal => enter_terminal(&mut self.parts, event, room.of_side()),
            Actor::Painter => enter_terminal(&mut self.parts, event, room.of_side()),
        }
    }
}

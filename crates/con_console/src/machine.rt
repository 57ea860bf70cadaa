//! The console in a book of turns.
ghost use Rattle.std.specs.Prelude.{◌≡◌};
ghost use Rattle.con_machine.specs.Numbered.{actor_of};

use crate::console::Console;
use crate::shown::Shown;
use con_book::Machine;
use con_events::{Actor, Event, Reply};
use con_machine::Room;
use con_units::OutOfMemory;

const TERMINAL: u32 = 1000;

const PAINTER: u32 = 1001;

// The actor of a number: client p is p, the side of the terminal 1,000, the painter 1,001.
fn actor_of(number: u32) -> Option<Actor>
    ensures { result ≡ actor_of number }
{
    if 0 < number && number < 256 {
        Some(Actor::Client(number as u8))
    } else if number == TERMINAL {
        Some(Actor::Terminal)
    } else if number == PAINTER {
        Some(Actor::Painter)
    } else {
        None
    }
}

/// Client p is actor p, the side of the terminal 1,000, and the painter 1,001. Another number is never ready.
impl Machine for Console {
    ghost use Rattle.con_machine.specs.Marks.{told};
    ghost use Rattle.con_machine.specs.Numbered.{actor_of, next_of, answer_of, ready_of, fits_of, tells_of, blank_state};

    type State = Shown;

    type Event = Event;

    type Reply = Reply;

    type Answer = Reply;

    type Room = Room;

    ghost state = { λ c. c.state };

    ghost blank = { blank_state };

    ghost next = { λ s n e. next_of s (actor_of n) e };

    ghost answer = { told };

    ghost answer_to = { λ s n e. answer_of s (actor_of n) e };

    ghost is_ready = { λ s n e. ready_of s (actor_of n) e };

    ghost fits = { λ room c n e. fits_of room c (actor_of n) e };

    ghost tells = { λ reply s n e. tells_of reply s (actor_of n) e };

    fn ready(&self, actor: u32, event: &Event) -> bool {
        match actor_of(actor) {
            None => false,
            Some(actor) => Console::ready(self, actor, event),
        }
    }

    fn prepare(&mut self, actor: u32, event: &Event) -> Result<Room, OutOfMemory> {
        match actor_of(actor) {
            None => Ok(Room::none()),
            Some(actor) => Console::prepare(self, actor, event),
        }
    }

    fn apply(&mut self, actor: u32, event: &Event, room: Room) -> Reply {
        match actor_of(actor) {
            None => unreachable!(),
            Some(actor) => Console::apply(self, actor, event, room),
        }
    }
}

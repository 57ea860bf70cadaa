//! A client's turn in a round, and the turns of all clients.
ghost use Rattle.std.specs.Prelude.{◌≡◌, ◌≤◌, length};
ghost use Rattle.con_handlers.specs.Boxes.{boxed};
ghost use Rattle.con_laws.specs.Rounds.{Begun};
ghost use Rattle.con_actors.specs.Words.Desk.{Ran};
ghost use Rattle.con_actors.specs.Held.{AllStand, ClientsTurn, HandsStand, HandsTurn};
ghost use Rattle.con_actors.specs.Words.Worker.{ClientIs};

use crate::turn::act;
use con_actors::{Desk, Seat};
use con_events::{Script, Step};
use con_outside::NoGate;
use con_units::OutOfMemory;

/// A client's turn in a round, the first of these that there is to do: the exit that a control event calls for, a control event
/// that is pending, the answer of a read that is open, the next step. False: it is gone, or its read is not done.
pub fn client_turn(
    desk: &mut Desk,
    seat: &mut Seat,
    steps: &[Step],
    p: u8,
) -> Result<bool, OutOfMemory>
    requires real { 1 ≤ p }
    ensures ran { Ran desk.old.console.state desk.new.console.state desk.old.entries.items desk.new.entries.items }
    ensures turn { (b : Begun) → ClientIs b p desk.old.console.state desk.old.entries.items steps.now seat.old.worker
        → HandsStand b p desk.old.entries.items (boxed memory) seat.old.hands
        → HandsTurn result b p desk.old.console.state desk.new.console.state desk.old.entries.items desk.new.entries.items
        desk.old.replies.items desk.new.replies.items steps.now seat.new.worker (boxed memory) seat.new.hands }
{
    if seat.worker.gone {
        return Ok(false);
    }
    act(desk, &NoGate, &mut seat.worker, &mut seat.hands, steps, p)
}

/// The turns of all clients in a round, each with its script, in the order of their numbers. Whether one of them entered an event.
#[tactic(auto, using(con_actors::specs::RanLaws::ran_then))]
pub fn clients_turn(
    desk: &mut Desk,
    seats: &mut [Seat],
    scripts: &[Script],
) -> Result<bool, OutOfMemory>
    requires few { length seats.old ≤ 64 }
    requires scripts { length scripts.now ≡ length seats.old }
    ensures ran { Ran desk.old.console.state desk.new.console.state desk.old.entries.items desk.new.entries.items }
    ensures turn { (b : Begun) → AllStand b desk.old.console.state desk.old.entries.items scripts.now (boxed memory) seats.old
        → ClientsTurn result b desk.old.console.state desk.new.console.state desk.old.entries.items desk.new.entries.items
        desk.old.replies.items desk.new.replies.items (length seats.old) scripts.now (boxed memory) seats.new }
{
    let mut acted = false;
    for k in 0..seats.len() {
        let script = &scripts[k];
        let one = &mut seats[k];
        acted |= client_turn(desk, one, script.steps.0.as_slice(), k as u8 + 1)?;
    }
    Ok(acted)
}

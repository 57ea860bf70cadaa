//! A client's turn, at any door to the console.
ghost use Rattle.std.specs.Prelude.{◌≡◌, true, false, IfOk};
ghost use Rattle.con_handlers.specs.Boxes.{boxed};
ghost use Rattle.con_laws.specs.Rounds.{Begun};
ghost use Rattle.con_actors.specs.DoorTurns.{ClientAt};
ghost use Rattle.con_actors.specs.Held.{HandsStand, HasTaken, HasTurned};

use con_actors::{Brief, CTRL_EXIT, Door, Hands, Worker, collect, leave, must_leave, next_step};
use con_events::{Actor, Event, Step};
use con_outside::Gate;
use con_units::OutOfMemory;

/// A control event that is pending. It calls for the exit where no handler handles it, and where it is the close event.
/// False: none is pending.
pub fn take_ctrl<D: Door>(
    door: &mut D,
    worker: &mut Worker,
    hands: &mut Hands,
    steps: &[Step],
    p: u8,
) -> Result<bool, OutOfMemory>
    requires serves { D.serves door.old (Actor.Client p) }
    requires here { worker.old.gone ≡ false }
    requires stays { worker.old.leaving ≡ false }
    ensures none { IfOk result (λ taken. taken ≡ false → worker.new ≡ worker.old) }
    ensures serves { D.serves door.new (Actor.Client p) }
    ensures stands { (k : D.Kept) → D.stands door.old k → D.stands door.new k }
    ensures taken { (k : D.Kept) (b : Begun) → D.stands door.old k → D.begins k b.state
        → ClientAt b p (D.history door.old) steps.now worker.old → HandsStand b p (D.history door.old) (boxed memory) hands.old
        → HasTaken (D.may_between (Actor.Client p)) result b p steps.now (D.history door.old) (D.history door.new) worker.new (boxed memory) hands.new }
{
    // The script stands in the clauses alone.
    let _ = steps.len();
    let Some(brief) = door.enter_if_ready(Actor::Client(p), Event::TakeCtrl)? else {
        return Ok(false);
    };
    match brief {
        Brief::Ctrl(event) => {
            let handled = hands.deliver(event);
            worker.leaving = must_leave(event, handled);
            Ok(true)
        }
        Brief::Fine => Ok(true),
        Brief::Refused => Ok(true),
    }
}

/// The turn of a client that is not gone, the first of these that there is to do: the exit that a control event calls for, a
/// control event that is pending, the answer of a read that is open, the next step, round which the gate is called. False: its
/// read is not done.
pub fn act<D: Door, G: Gate>(
    door: &mut D,
    gate: &G,
    worker: &mut Worker,
    hands: &mut Hands,
    steps: &[Step],
    p: u8,
) -> Result<bool, OutOfMemory>
    requires serves { D.serves door.old (Actor.Client p) }
    requires here { worker.old.gone ≡ false }
    ensures serves { D.serves door.new (Actor.Client p) }
    ensures stands { (k : D.Kept) → D.stands door.old k → D.stands door.new k }
    ensures turned { (k : D.Kept) (b : Begun) → D.stands door.old k → D.begins k b.state
        → ClientAt b p (D.history door.old) steps.now worker.old → HandsStand b p (D.history door.old) (boxed memory) hands.old
        → HasTurned (D.may_between (Actor.Client p)) result b p steps.now (D.history door.old) (D.history door.new) worker.new (boxed memory) hands.new }
{
    if worker.leaving {
        return leave(door, worker, steps, p, CTRL_EXIT);
    }
    if take_ctrl(door, worker, hands, steps, p)? {
        return Ok(true);
    }
    if worker.reading {
        return collect(door, worker, steps, p);
    }
    next_step(door, gate, worker, hands, steps, p)
}

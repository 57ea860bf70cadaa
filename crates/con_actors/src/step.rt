//! A step of a client's script, at any door to the console.
ghost use Rattle.std.specs.Prelude.{◌≡◌, ◌<◌, ℕ, true, false, List, length};
ghost use Rattle.con_handlers.specs.Memory.{Memory};
ghost use Rattle.con_machine.specs.Client.{event_of};
ghost use Rattle.con_laws.specs.Rounds.{Begun};
ghost use Rattle.con_actors.specs.DoorTurns.{ClientAt, HasTurnedBy, IsNext, IsQuiet};
ghost use Rattle.con_actors.specs.Held.{HandsStand, HasTurned};
ghost use Rattle.con_actors.specs.Words.Worker.{HandsStandBy, is_handlers};

use crate::door::Door;
use crate::hands::Hands;
use crate::worker::{Worker, is_granted, leave};
use con_copies::{copied_call, copied_wanted};
use con_events::{Actor, Call, Event, Step, Wanted};
use con_outside::Gate;
use con_units::OutOfMemory;

/// A wait that is the next step begins.
pub fn begin<D: Door>(
    door: &mut D,
    worker: &mut Worker,
    steps: &[Step],
    p: u8,
    wanted: Wanted,
) -> Result<bool, OutOfMemory>
    requires serves { D.serves door.old (Actor.Client p) }
    requires here { worker.old.gone ≡ false }
    requires stays { worker.old.leaving ≡ false }
    requires reading { worker.old.reading ≡ false }
    requires some { worker.old.at < length steps.now }
    requires next { IsNext steps.now worker.old (Event.Begin wanted) }
    ensures serves { D.serves door.new (Actor.Client p) }
    ensures stands { (k : D.Kept) → D.stands door.old k → D.stands door.new k }
    ensures turned { (k : D.Kept) (b : Begun) (places : List ℕ) (ms : List Memory) (slots : List ℕ) → D.stands door.old k → D.begins k b.state
        → ClientAt b p (D.history door.old) steps.now worker.old → HandsStandBy b p (D.history door.old) places ms slots
        → IsQuiet b p (D.history door.old)
        → HasTurnedBy (D.may_between (Actor.Client p)) result b p steps.now (D.history door.old) (D.history door.new) worker.new places ms slots }
{
    let brief = door.enter(Actor::Client(p), Event::Begin(wanted))?;
    worker.at += 1;
    worker.reading = is_granted(brief);
    Ok(true)
}

/// A call that is the next step, and adds and removes no handler.
pub fn call_plain<D: Door>(
    door: &mut D,
    worker: &mut Worker,
    steps: &[Step],
    p: u8,
    call: Call,
) -> Result<bool, OutOfMemory>
    requires serves { D.serves door.old (Actor.Client p) }
    requires here { worker.old.gone ≡ false }
    requires stays { worker.old.leaving ≡ false }
    requires reading { worker.old.reading ≡ false }
    requires some { worker.old.at < length steps.now }
    requires next { IsNext steps.now worker.old (Event.Call call) }
    requires plain { is_handlers call ≡ false }
    ensures serves { D.serves door.new (Actor.Client p) }
    ensures stands { (k : D.Kept) → D.stands door.old k → D.stands door.new k }
    ensures turned { (k : D.Kept) (b : Begun) (places : List ℕ) (ms : List Memory) (slots : List ℕ) → D.stands door.old k → D.begins k b.state
        → ClientAt b p (D.history door.old) steps.now worker.old → HandsStandBy b p (D.history door.old) places ms slots
        → IsQuiet b p (D.history door.old)
        → HasTurnedBy (D.may_between (Actor.Client p)) result b p steps.now (D.history door.old) (D.history door.new) worker.new places ms slots }
{
    door.enter(Actor::Client(p), Event::Call(call))?;
    worker.at += 1;
    Ok(true)
}

/// A call that is the next step, and adds a handler. The chain gets it where the call was done.
pub fn call_add<D: Door>(
    door: &mut D,
    worker: &mut Worker,
    hands: &mut Hands,
    steps: &[Step],
    p: u8,
    place: u32,
) -> Result<bool, OutOfMemory>
    requires serves { D.serves door.old (Actor.Client p) }
    requires here { worker.old.gone ≡ false }
    requires stays { worker.old.leaving ≡ false }
    requires reading { worker.old.reading ≡ false }
    requires some { worker.old.at < length steps.now }
    requires next { IsNext steps.now worker.old (Event.Call (Call.HandlerAdd place)) }
    ensures serves { D.serves door.new (Actor.Client p) }
    ensures stands { (k : D.Kept) → D.stands door.old k → D.stands door.new k }
    ensures turned { (k : D.Kept) (b : Begun) → D.stands door.old k → D.begins k b.state
        → ClientAt b p (D.history door.old) steps.now worker.old → HandsStand b p (D.history door.old) memory hands.old
        → IsQuiet b p (D.history door.old)
        → HasTurned (D.may_between (Actor.Client p)) result b p steps.now (D.history door.old) (D.history door.new) worker.new memory hands.new }
{
    // The script stands in the clauses alone.
    let _ = steps.len();
    let call = Call::HandlerAdd(place);
    let brief = door.enter(Actor::Client(p), Event::Call(call))?;
    worker.at += 1;
    if !is_granted(brief) {
        return Ok(true);
    }
    hands.add(place)?;
    Ok(true)
}

/// A call that is the next step, and removes a handler. The chain loses it where the call was done.
pub fn call_remove<D: Door>(
    door: &mut D,
    worker: &mut Worker,
    hands: &mut Hands,
    steps: &[Step],
    p: u8,
    place: u32,
) -> Result<bool, OutOfMemory>
    requires serves { D.serves door.old (Actor.Client p) }
    requires here { worker.old.gone ≡ false }
    requires stays { worker.old.leaving ≡ false }
    requires reading { worker.old.reading ≡ false }
    requires some { worker.old.at < length steps.now }
    requires next { IsNext steps.now worker.old (Event.Call (Call.HandlerRemove place)) }
    ensures serves { D.serves door.new (Actor.Client p) }
    ensures stands { (k : D.Kept) → D.stands door.old k → D.stands door.new k }
    ensures turned { (k : D.Kept) (b : Begun) → D.stands door.old k → D.begins k b.state
        → ClientAt b p (D.history door.old) steps.now worker.old → HandsStand b p (D.history door.old) memory hands.old
        → IsQuiet b p (D.history door.old)
        → HasTurned (D.may_between (Actor.Client p)) result b p steps.now (D.history door.old) (D.history door.new) worker.new memory hands.new }
{
    // The script stands in the clauses alone.
    let _ = steps.len();
    let call = Call::HandlerRemove(place);
    let brief = door.enter(Actor::Client(p), Event::Call(call))?;
    worker.at += 1;
    if !is_granted(brief) {
        return Ok(true);
    }
    hands.remove(place);
    Ok(true)
}

// A call that is the next step.
fn call_step<D: Door>(
    door: &mut D,
    worker: &mut Worker,
    hands: &mut Hands,
    steps: &[Step],
    p: u8,
    call: &Call,
) -> Result<bool, OutOfMemory>
    requires serves { D.serves door.old (Actor.Client p) }
    requires here { worker.old.gone ≡ false }
    requires stays { worker.old.leaving ≡ false }
    requires reading { worker.old.reading ≡ false }
    requires some { worker.old.at < length steps.now }
    requires next { IsNext steps.now worker.old (Event.Call call.now) }
    ensures serves { D.serves door.new (Actor.Client p) }
    ensures stands { (k : D.Kept) → D.stands door.old k → D.stands door.new k }
    ensures turned { (k : D.Kept) (b : Begun) → D.stands door.old k → D.begins k b.state
        → ClientAt b p (D.history door.old) steps.now worker.old → HandsStand b p (D.history door.old) memory hands.old
        → IsQuiet b p (D.history door.old)
        → HasTurned (D.may_between (Actor.Client p)) result b p steps.now (D.history door.old) (D.history door.new) worker.new memory hands.new }
{
    match call {
        Call::HandlerAdd(place) => call_add(door, worker, hands, steps, p, *place),
        Call::HandlerRemove(place) => call_remove(door, worker, hands, steps, p, *place),
        other => {
            let call = copied_call(other)?;
            call_plain(door, worker, steps, p, call)
        }
    }
}

// The step at which it is.
fn one_step<D: Door>(
    door: &mut D,
    worker: &mut Worker,
    hands: &mut Hands,
    steps: &[Step],
    p: u8,
    step: &Step,
) -> Result<bool, OutOfMemory>
    requires serves { D.serves door.old (Actor.Client p) }
    requires here { worker.old.gone ≡ false }
    requires stays { worker.old.leaving ≡ false }
    requires reading { worker.old.reading ≡ false }
    requires some { worker.old.at < length steps.now }
    requires next { IsNext steps.now worker.old (event_of step.now) }
    ensures serves { D.serves door.new (Actor.Client p) }
    ensures stands { (k : D.Kept) → D.stands door.old k → D.stands door.new k }
    ensures turned { (k : D.Kept) (b : Begun) → D.stands door.old k → D.begins k b.state
        → ClientAt b p (D.history door.old) steps.now worker.old → HandsStand b p (D.history door.old) memory hands.old
        → IsQuiet b p (D.history door.old)
        → HasTurned (D.may_between (Actor.Client p)) result b p steps.now (D.history door.old) (D.history door.new) worker.new memory hands.new }
{
    match step {
        Step::Exit(status) => leave(door, worker, steps, p, *status),
        Step::Begin(wanted) => {
            let wanted = copied_wanted(wanted)?;
            begin(door, worker, steps, p, wanted)
        }
        Step::Call(call) => call_step(door, worker, hands, steps, p, call),
    }
}

// A step's number as a gate is told it.
fn as_number(at: usize) -> u32 {
    match u32::try_from(at) {
        Ok(number) => number,
        Err(_) => u32::MAX,
    }
}

/// The next step of the script, between the gate's calls, or behind the last one the exit.
pub fn next_step<D: Door, G: Gate>(
    door: &mut D,
    gate: &G,
    worker: &mut Worker,
    hands: &mut Hands,
    steps: &[Step],
    p: u8,
) -> Result<bool, OutOfMemory>
    requires serves { D.serves door.old (Actor.Client p) }
    requires here { worker.old.gone ≡ false }
    requires stays { worker.old.leaving ≡ false }
    requires reading { worker.old.reading ≡ false }
    ensures serves { D.serves door.new (Actor.Client p) }
    ensures stands { (k : D.Kept) → D.stands door.old k → D.stands door.new k }
    ensures turned { (k : D.Kept) (b : Begun) → D.stands door.old k → D.begins k b.state
        → ClientAt b p (D.history door.old) steps.now worker.old → HandsStand b p (D.history door.old) memory hands.old
        → IsQuiet b p (D.history door.old)
        → HasTurned (D.may_between (Actor.Client p)) result b p steps.now (D.history door.old) (D.history door.new) worker.new memory hands.new }
{
    // On the way that leaves, the handlers stand in the clauses alone.
    let _ = hands.places.len();
    let at = worker.at;
    if at >= steps.len() {
        return leave(door, worker, steps, p, 0);
    }
    gate.before(p, as_number(at));
    let done = one_step(door, worker, hands, steps, p, &steps[at]);
    gate.after(p, as_number(at));
    done
}

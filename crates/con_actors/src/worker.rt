//! A client's worker: how far it is in its script, and what it enters beside its steps, at any door to the console.
ghost use Rattle.std.specs.Prelude.{◌≡◌, ◌==◌, ◌||◌, ℕ, true, false, not, List};
ghost use Rattle.con_handlers.specs.Memory.{Memory};
ghost use Rattle.con_laws.specs.Rounds.{Begun};
ghost use Rattle.con_actors.specs.Words.Desk.{is_refused};
ghost use Rattle.con_actors.specs.DoorTurns.{ClientAt, HasTurnedBy, IsQuiet, MayExit};
ghost use Rattle.con_actors.specs.Words.Worker.{HandsStandBy};

use crate::desk::Brief;
use crate::door::Door;
use con_events::{Actor, Event, Step};
use con_units::OutOfMemory;

/// The status of a process that a control event ended (`STATUS_CONTROL_C_EXIT`).
pub const CTRL_EXIT: u32 = 3221225786;

/// How far a client is in its script.
#[derive(Clone, Copy, PartialEq, Eq)]
pub struct Worker {
    /// The steps that it entered.
    pub at: usize,
    /// A read was begun, and not collected.
    pub reading: bool,
    /// The control event that it took last calls for the exit.
    pub leaving: bool,
    pub gone: bool,
}

/// The exit that a control event calls for, that of a step, or that behind the last one.
pub fn leave<D: Door>(
    door: &mut D,
    worker: &mut Worker,
    steps: &[Step],
    p: u8,
    status: u32,
) -> Result<bool, OutOfMemory>
    requires serves { D.serves door.old (Actor.Client p) }
    requires here { worker.old.gone ≡ false }
    ensures serves { D.serves door.new (Actor.Client p) }
    ensures stands { (k : D.Kept) → D.stands door.old k → D.stands door.new k }
    ensures turned { (k : D.Kept) (b : Begun) (places : List ℕ) (ms : List Memory) (slots : List ℕ) → D.stands door.old k → D.begins k b.state
        → ClientAt b p (D.history door.old) steps.now worker.old → HandsStandBy b p (D.history door.old) places ms slots
        → MayExit b p (D.history door.old) status
        → HasTurnedBy (D.may_between (Actor.Client p)) result b p steps.now (D.history door.old) (D.history door.new) worker.new places ms slots }
{
    // The script stands in the clauses alone.
    let _ = steps.len();
    door.enter(Actor::Client(p), Event::Exit(status))?;
    worker.gone = true;
    Ok(true)
}

/// The answer of its read, once that is done.
pub fn collect<D: Door>(
    door: &mut D,
    worker: &mut Worker,
    steps: &[Step],
    p: u8,
) -> Result<bool, OutOfMemory>
    requires serves { D.serves door.old (Actor.Client p) }
    requires here { worker.old.gone ≡ false }
    requires stays { worker.old.leaving ≡ false }
    requires reading { worker.old.reading ≡ true }
    ensures serves { D.serves door.new (Actor.Client p) }
    ensures stands { (k : D.Kept) → D.stands door.old k → D.stands door.new k }
    ensures turned { (k : D.Kept) (b : Begun) (places : List ℕ) (ms : List Memory) (slots : List ℕ) → D.stands door.old k → D.begins k b.state
        → ClientAt b p (D.history door.old) steps.now worker.old → HandsStandBy b p (D.history door.old) places ms slots
        → IsQuiet b p (D.history door.old)
        → HasTurnedBy (D.may_between (Actor.Client p)) result b p steps.now (D.history door.old) (D.history door.new) worker.new places ms slots }
{
    // The script stands in the clauses alone.
    let _ = steps.len();
    match door.enter_if_ready(Actor::Client(p), Event::Collect)? {
        None => Ok(false),
        Some(_) => {
            worker.reading = false;
            Ok(true)
        }
    }
}

/// Whether a control event calls for the exit: where no handler handled it, and where it is the close event.
pub fn must_leave(event: u32, handled: bool) -> bool
    ensures { result ≡ ((event == 2) || not handled) }
{
    event == 2 || !handled
}

/// Whether a reply is no refusal.
pub fn is_granted(brief: Brief) -> bool
    ensures { result ≡ not (is_refused brief) }
{
    !matches!(brief, Brief::Refused)
}

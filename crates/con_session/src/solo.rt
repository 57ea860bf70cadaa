//! A session by turns on one thread: rounds until nobody acts.
ghost use Rattle.std.specs.Prelude.{◌≡◌, ◌⊎◌, ℕ, ◌<◌, ◌≤◌, ◌||◌, true, false, List, All, length, map, Option, IfOk};
ghost use Rattle.con_outside.specs.Outside.{Rose};
ghost use Rattle.con_events.specs.declared.end.End.{End};
ghost use Rattle.con_handlers.specs.Boxes.{boxed};
ghost use Rattle.con_laws.specs.Rounds.{Begun};
ghost use Rattle.con_machine.specs.Turns.{paints};
ghost use Rattle.con_actors.specs.Held.{moment};
ghost use Rattle.con_actors.specs.Outcome.{IsSoloOutcome};
ghost use Rattle.con_actors.specs.Painting.{IsTied};
ghost use Rattle.con_actors.specs.Words.Sender.{FailsBy};
ghost use Rattle.con_actors.specs.Solo.{Goes, RoundTurn, RoundsTurn, fails_at};
ghost use Rattle.con_actors.specs.Worker.{told_kind};

use crate::clients::clients_turn;
use crate::painting::painter_turn;
use crate::terminal::terminal_turn;
use con_actors::{Outcome, Seat, Stage, begun, end_by, left_by, nothing_left};
use con_events::{End, Script, Session};
use con_handlers::CtrlHandler;
use con_outside::{Sink, Source};
use con_units::OutOfMemory;
use std::alloc::Global;

// Whether one of them acted.
pub(crate) fn any_of(sent: bool, entered: bool, painted: bool) -> bool
    ensures { result ≡ (sent || (entered || painted)) }
{
    sent || entered || painted
}

/// A round: the terminal's side, each client, the painter. False: nobody had anything to do.
fn round<I: Source, O: Sink>(
    stage: &mut Stage,
    seats: &mut [Seat],
    scripts: &[Script],
    link: &mut I,
    term: &mut O,
) -> Result<bool, OutOfMemory>
    requires few { length seats.old ≤ 64 }
    requires scripts { length scripts.now ≡ length seats.old }
    requires taken { stage.old.side.ended ≡ false → stage.old.reader ≤ 16777216 }
    requires served { (stage.old.desk.console.state.asked ≡ false) ⊎ (stage.old.canvas.failed ≡ true) }
    requires tied { IsTied stage.old.desk.console.state stage.old.canvas.painter }
    ensures taken { IfOk result (λ _. stage.new.side.ended ≡ false → stage.new.reader ≤ 16777216) }
    ensures served { IfOk result (λ _. (stage.new.desk.console.state.asked ≡ false) ⊎ (stage.new.canvas.failed ≡ true)) }
    ensures tied { IfOk result (λ _. IsTied stage.new.desk.console.state stage.new.canvas.painter) }
    ensures turn { (b : Begun) (before old : Option (List ℕ))
        → ((f : Option ℕ) → FailsBy stage.old.canvas.failed f (paints stage.old.desk.entries.items)
        → Goes (fails_at b f) scripts.now before old (moment (boxed memory) stage.old seats.old (I.left link.old) (O.written term.old)))
        → (f : Option ℕ) → FailsBy stage.new.canvas.failed f (paints stage.new.desk.entries.items)
        → RoundTurn result (fails_at b f) scripts.now before old stage.old.desk.entries.items
        (moment (boxed memory) stage.new seats.new (I.left link.new) (O.written term.new)) }
    ensures link { stage.new.side.end ≡ End.Link → (stage.old.side.end ≡ End.Link) ⊎ Rose (I.faults link.old) (I.faults link.new) }
    ensures term { stage.new.canvas.failed ≡ true → (stage.old.canvas.failed ≡ true) ⊎ Rose (O.faults term.old) (O.faults term.new) }
    ensures link_never_falls { I.faults link.old ≤ I.faults link.new }
    ensures term_never_falls { O.faults term.old ≤ O.faults term.new }
{
    let failed = stage.canvas.failed;
    let sent = terminal_turn(
        &mut stage.desk,
        &mut stage.reader,
        link,
        &mut stage.side,
        failed,
    )?;
    let entered = clients_turn(&mut stage.desk, seats, scripts)?;
    let painted = painter_turn(&mut stage.desk, &mut stage.canvas, term)?;
    Ok(any_of(sent, entered, painted))
}

/// Rounds, until nobody has anything to do.
fn rounds<I: Source, O: Sink>(
    stage: &mut Stage,
    seats: &mut [Seat],
    scripts: &[Script],
    link: &mut I,
    term: &mut O,
) -> Result<(), OutOfMemory>
    requires few { length seats.old ≤ 64 }
    requires scripts { length scripts.now ≡ length seats.old }
    requires taken { stage.old.side.ended ≡ false → stage.old.reader ≤ 16777216 }
    requires served { (stage.old.desk.console.state.asked ≡ false) ⊎ (stage.old.canvas.failed ≡ true) }
    requires tied { IsTied stage.old.desk.console.state stage.old.canvas.painter }
    requires going { (b : Begun) × (before : Option (List ℕ)) × (old : Option (List ℕ))
        × ((f : Option ℕ) → FailsBy stage.old.canvas.failed f (paints stage.old.desk.entries.items)
        → Goes (fails_at b f) scripts.now before old (moment (boxed memory) stage.old seats.old (I.left link.old) (O.written term.old))) }
    ensures turn { (b : Begun) (before old : Option (List ℕ))
        → ((f : Option ℕ) → FailsBy stage.old.canvas.failed f (paints stage.old.desk.entries.items)
        → Goes (fails_at b f) scripts.now before old (moment (boxed memory) stage.old seats.old (I.left link.old) (O.written term.old)))
        → (f : Option ℕ) → FailsBy stage.new.canvas.failed f (paints stage.new.desk.entries.items)
        → RoundsTurn result (fails_at b f) scripts.now before old (moment (boxed memory) stage.new seats.new (I.left link.new) (O.written term.new)) }
    ensures link { stage.new.side.end ≡ End.Link → (stage.old.side.end ≡ End.Link) ⊎ Rose (I.faults link.old) (I.faults link.new) }
    ensures term { stage.new.canvas.failed ≡ true → (stage.old.canvas.failed ≡ true) ⊎ Rose (O.faults term.old) (O.faults term.new) }
    ensures link_never_falls { I.faults link.old ≤ I.faults link.new }
    ensures term_never_falls { O.faults term.old ≤ O.faults term.new }
{
    while round(stage, seats, scripts, link, term)? {}
    Ok(())
}

/// Runs a session by turns on one thread: rounds of the terminal's side, each client and the painter, until a round in which nobody acts.
/// The handlers of `racks` are those that the clients may add, by place; a client behind the last rack has none.
pub fn run_solo<I: Source, O: Sink>(
    alloc: Global,
    session: &Session,
    link: &mut I,
    term: &mut O,
    racks: Vec<Vec<Box<dyn CtrlHandler + Send>>>,
) -> Outcome
    requires few { All (λ rack. length rack.items ≤ 255) racks.items }
    ensures outcome { IsSoloOutcome session.now (map (λ rack. map (λ b. told_kind (memory b)) rack.items) racks.items)
        result.entries result.replies result.ends result.end (I.left link.old) (I.left link.new) (O.written term.old) (O.written term.new) }
    ensures link { result.end ≡ End.Link → Rose (I.faults link.old) (I.faults link.new) }
    ensures term { result.end ≡ End.Term → Rose (O.faults term.old) (O.faults term.new) }
    ensures link_never_falls { I.faults link.old ≤ I.faults link.new }
    ensures term_never_falls { O.faults term.old ≤ O.faults term.new }
{
    let Ok((mut stage, mut seats)) = begun(alloc, session, racks) else {
        return nothing_left(alloc);
    };
    match rounds(
        &mut stage,
        seats.as_mut_slice(),
        session.scripts(),
        link,
        term,
    ) {
        Ok(()) => {
            let end = end_by(stage.canvas.failed, stage.side.end);
            left_by(stage, end)
        }
        Err(OutOfMemory) => left_by(stage, End::Memory),
    }
}

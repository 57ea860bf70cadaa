//! A session by turns with a second terminal: rounds until nobody acts.
ghost use Rattle.std.specs.Prelude.{◌≡◌, ◌⊎◌, ℕ, ◌<◌, ◌≤◌, true, false, List, All, length, map, Option, IfOk};
ghost use Rattle.con_outside.specs.Outside.{Rose};
ghost use Rattle.con_link.specs.LinkReading.{mirrored};
ghost use Rattle.con_events.specs.declared.end.End.{End};
ghost use Rattle.con_handlers.specs.Boxes.{boxed};
ghost use Rattle.con_laws.specs.Rounds.{Begun};
ghost use Rattle.con_machine.specs.Turns.{paints};
ghost use Rattle.con_actors.specs.Held.{moment};
ghost use Rattle.con_actors.specs.Painting.{IsTied};
ghost use Rattle.con_actors.specs.Second.{IsMirrorOutcome, Mirrors};
ghost use Rattle.con_actors.specs.Words.Second.{IsFollowed, Seconded};
ghost use Rattle.con_actors.specs.Words.Sender.{FailsBy};
ghost use Rattle.con_actors.specs.Solo.{GoesBy, RoundTurnBy, RoundsTurnBy, fails_at};
ghost use Rattle.con_actors.specs.Worker.{told_kind};

use crate::clients::clients_turn;
use crate::painting::painted;
use crate::second::{followed, mirrored_turn};
use crate::solo::any_of;
use con_actors::{
    Mirrored, Seat, Second, Stage, begun, end_by, left_by, left_with, none_attached, nothing_left,
};
use con_events::{End, Script, Session};
use con_handlers::CtrlHandler;
use con_outside::{Sink, Source};
use con_units::OutOfMemory;
use std::alloc::Global;

// A round: the terminal's side with the mirror, each client, the painter with the second terminal. False: nobody had anything to do.
fn mirror_round<I: Source, O: Sink, N: Sink>(
    stage: &mut Stage,
    seats: &mut [Seat],
    scripts: &[Script],
    link: &mut I,
    term: &mut O,
    second: &mut Second,
    sink: &mut N,
) -> Result<bool, OutOfMemory>
    requires few { length seats.old ≤ 64 }
    requires scripts { length scripts.now ≡ length seats.old }
    requires taken { stage.old.side.ended ≡ false → stage.old.reader ≤ 16777216 }
    requires served { (stage.old.desk.console.state.asked ≡ false) ⊎ (stage.old.canvas.failed ≡ true) }
    requires tied { IsTied stage.old.desk.console.state stage.old.canvas.painter }
    requires followed { IsFollowed stage.old.desk.console.state second.old.mirror.given }
    ensures taken { IfOk result (λ _. stage.new.side.ended ≡ false → stage.new.reader ≤ 16777216) }
    ensures served { IfOk result (λ _. (stage.new.desk.console.state.asked ≡ false) ⊎ (stage.new.canvas.failed ≡ true)) }
    ensures tied { IfOk result (λ _. IsTied stage.new.desk.console.state stage.new.canvas.painter) }
    ensures followed { IfOk result (λ _. IsFollowed stage.new.desk.console.state second.new.mirror.given) }
    ensures turn { (b : Begun) (before old was : Option (List ℕ))
        → ((f : Option ℕ) → FailsBy stage.old.canvas.failed f (paints stage.old.desk.entries.items)
        → GoesBy mirrored
        (Seconded b.state stage.old.side.ended second.old.mirror.kept second.old.ends.items second.old.end was
        (N.written sink.old) second.old.failed)
        (fails_at b f) scripts.now before old (moment (boxed memory) stage.old seats.old (I.left link.old) (O.written term.old)))
        → (f : Option ℕ) → FailsBy stage.new.canvas.failed f (paints stage.new.desk.entries.items)
        → RoundTurnBy mirrored
        (Seconded b.state stage.new.side.ended second.new.mirror.kept second.new.ends.items second.new.end was
        (N.written sink.new) second.new.failed)
        (λ frames h. Mirrors b.state frames b.session.size second.new.ends.items was (N.written sink.new) second.new.failed true h)
        result (fails_at b f) scripts.now before old stage.old.desk.entries.items
        (moment (boxed memory) stage.new seats.new (I.left link.new) (O.written term.new)) }
    ensures link { stage.new.side.end ≡ End.Link → (stage.old.side.end ≡ End.Link) ⊎ Rose (I.faults link.old) (I.faults link.new) }
    ensures term { stage.new.canvas.failed ≡ true → (stage.old.canvas.failed ≡ true) ⊎ Rose (O.faults term.old) (O.faults term.new) }
    ensures link_never_falls { I.faults link.old ≤ I.faults link.new }
    ensures term_never_falls { O.faults term.old ≤ O.faults term.new }
    ensures second { second.new.failed ≡ true → (second.old.failed ≡ true) ⊎ Rose (N.faults sink.old) (N.faults sink.new) }
    ensures second_never_falls { N.faults sink.old ≤ N.faults sink.new }
{
    let failed = stage.canvas.failed;
    let sent = mirrored_turn(
        &mut stage.desk,
        &mut stage.reader,
        link,
        &mut stage.side,
        failed,
        &mut second.mirror,
    )?;
    let entered = clients_turn(&mut stage.desk, seats, scripts)?;
    let shown = painted(&mut stage.desk, &mut stage.canvas, term)?;
    let painted = followed(second, shown, sink)?;
    Ok(any_of(sent, entered, painted))
}

// Rounds, until nobody has anything to do.
fn mirror_rounds<I: Source, O: Sink, N: Sink>(
    stage: &mut Stage,
    seats: &mut [Seat],
    scripts: &[Script],
    link: &mut I,
    term: &mut O,
    second: &mut Second,
    sink: &mut N,
) -> Result<(), OutOfMemory>
    requires few { length seats.old ≤ 64 }
    requires scripts { length scripts.now ≡ length seats.old }
    requires taken { stage.old.side.ended ≡ false → stage.old.reader ≤ 16777216 }
    requires served { (stage.old.desk.console.state.asked ≡ false) ⊎ (stage.old.canvas.failed ≡ true) }
    requires tied { IsTied stage.old.desk.console.state stage.old.canvas.painter }
    requires followed { IsFollowed stage.old.desk.console.state second.old.mirror.given }
    requires going { (b : Begun) × (before : Option (List ℕ)) × (old : Option (List ℕ)) × (was : Option (List ℕ))
        × ((f : Option ℕ) → FailsBy stage.old.canvas.failed f (paints stage.old.desk.entries.items)
        → GoesBy mirrored
        (Seconded b.state stage.old.side.ended second.old.mirror.kept second.old.ends.items second.old.end was
        (N.written sink.old) second.old.failed)
        (fails_at b f) scripts.now before old (moment (boxed memory) stage.old seats.old (I.left link.old) (O.written term.old))) }
    ensures turn { (b : Begun) (before old was : Option (List ℕ))
        → ((f : Option ℕ) → FailsBy stage.old.canvas.failed f (paints stage.old.desk.entries.items)
        → GoesBy mirrored
        (Seconded b.state stage.old.side.ended second.old.mirror.kept second.old.ends.items second.old.end was
        (N.written sink.old) second.old.failed)
        (fails_at b f) scripts.now before old (moment (boxed memory) stage.old seats.old (I.left link.old) (O.written term.old)))
        → (f : Option ℕ) → FailsBy stage.new.canvas.failed f (paints stage.new.desk.entries.items)
        → RoundsTurnBy mirrored
        (Seconded b.state stage.new.side.ended second.new.mirror.kept second.new.ends.items second.new.end was
        (N.written sink.new) second.new.failed)
        (λ frames h. Mirrors b.state frames b.session.size second.new.ends.items was (N.written sink.new) second.new.failed true h)
        result (fails_at b f) scripts.now before old
        (moment (boxed memory) stage.new seats.new (I.left link.new) (O.written term.new)) }
    ensures link { stage.new.side.end ≡ End.Link → (stage.old.side.end ≡ End.Link) ⊎ Rose (I.faults link.old) (I.faults link.new) }
    ensures term { stage.new.canvas.failed ≡ true → (stage.old.canvas.failed ≡ true) ⊎ Rose (O.faults term.old) (O.faults term.new) }
    ensures link_never_falls { I.faults link.old ≤ I.faults link.new }
    ensures term_never_falls { O.faults term.old ≤ O.faults term.new }
    ensures second { second.new.failed ≡ true → (second.old.failed ≡ true) ⊎ Rose (N.faults sink.old) (N.faults sink.new) }
    ensures second_never_falls { N.faults sink.old ≤ N.faults sink.new }
{
    while mirror_round(stage, seats, scripts, link, term, second, sink)? {}
    Ok(())
}

/// Runs a session by turns on one thread, as `run_solo`, of a link by whose frames a second terminal attaches and detaches. While it
/// is attached it follows each Paint. After a fault of its sink nothing more is written to it, and the session goes on.
pub fn run_mirrored<I: Source, O: Sink, N: Sink>(
    alloc: Global,
    session: &Session,
    link: &mut I,
    term: &mut O,
    second: &mut N,
    racks: Vec<Vec<Box<dyn CtrlHandler + Send>>>,
) -> Mirrored
    requires few { All (λ rack. length rack.items ≤ 255) racks.items }
    ensures outcome { IsMirrorOutcome session.now (map (λ rack. map (λ b. told_kind (memory b)) rack.items) racks.items)
        result.outcome.entries result.outcome.replies result.outcome.ends result.outcome.end result.ends result.failed
        (I.left link.old) (I.left link.new) (O.written term.old) (O.written term.new) (N.written second.old) (N.written second.new) }
    ensures link { result.outcome.end ≡ End.Link → Rose (I.faults link.old) (I.faults link.new) }
    ensures term { result.outcome.end ≡ End.Term → Rose (O.faults term.old) (O.faults term.new) }
    ensures second { result.failed ≡ true → Rose (N.faults second.old) (N.faults second.new) }
    ensures link_never_falls { I.faults link.old ≤ I.faults link.new }
    ensures term_never_falls { O.faults term.old ≤ O.faults term.new }
    ensures second_never_falls { N.faults second.old ≤ N.faults second.new }
{
    let mut beside = none_attached(alloc);
    let Ok((mut stage, mut seats)) = begun(alloc, session, racks) else {
        return left_with(nothing_left(alloc), beside);
    };
    match mirror_rounds(
        &mut stage,
        seats.as_mut_slice(),
        session.scripts(),
        link,
        term,
        &mut beside,
        second,
    ) {
        Ok(()) => {
            let end = end_by(stage.canvas.failed, stage.side.end);
            left_with(left_by(stage, end), beside)
        }
        Err(OutOfMemory) => left_with(left_by(stage, End::Memory), beside),
    }
}

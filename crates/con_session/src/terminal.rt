//! The terminal's side: one frame a turn.
ghost use Rattle.std.specs.Prelude.{◌≡◌, ◌⊎◌, ℕ, true, false, List, ◌≤◌, Option, IfOk};
ghost use Rattle.con_outside.specs.Outside.{Rose};
ghost use Rattle.con_link.specs.Frames.{is_frame};
ghost use Rattle.con_laws.specs.Rounds.{Begun};
ghost use Rattle.con_machine.specs.Turns.{has_ended, paints, sent};
ghost use Rattle.con_actors.specs.Words.Desk.{Ran};
ghost use Rattle.con_actors.specs.Words.Sender.{FailsBy, Hears, LinkIs, LinkTurn, SenderTurn};

use con_actors::{Desk, Side, end_by_fault, ends_the_link, event_for};
use con_events::{Actor, End, Event};
use con_link::{LinkFault, LinkReader};
use con_outside::Source;
use con_units::{Frame, OutOfMemory};

/// Enters what the terminal's side makes of what was read of the link: the event of a frame, or a hangup where no frame was read.
/// Where there is no memory nothing was entered.
pub fn heard(
    desk: &mut Desk,
    side: &mut Side,
    read: Result<Frame, LinkFault>,
) -> Result<bool, OutOfMemory>
    requires frame { IfOk read (λ frame. is_frame frame ≡ true) }
    requires answered { desk.old.console.state.asked ≡ false }
    ensures ran { Ran desk.old.console.state desk.new.console.state desk.old.entries.items desk.new.entries.items }
    ensures hears { Hears result read side.old side.new desk.old.console.state desk.new.console.state desk.old.entries.items desk.new.entries.items
        desk.old.replies.items desk.new.replies.items }
{
    match read {
        Ok(frame) => {
            let ends = ends_the_link(&frame);
            desk.enter(Actor::Terminal, event_for(frame))?;
            side.ended = ends;
            Ok(true)
        }
        Err(LinkFault::OutOfMemory) => Err(OutOfMemory),
        Err(fault) => {
            desk.enter(Actor::Terminal, Event::Hangup)?;
            side.ended = true;
            side.end = end_by_fault(fault);
            Ok(true)
        }
    }
}

/// One turn of the terminal's side: the event of a frame, or a hangup where the terminal has failed and where a frame is
/// not read. False: it had ended.
pub fn terminal_turn<I: Source>(
    desk: &mut Desk,
    reader: &mut LinkReader,
    link: &mut I,
    side: &mut Side,
    failed: bool,
) -> Result<bool, OutOfMemory>
    requires few { side.old.ended ≡ false → reader.old ≤ 16777216 }
    requires answered { (desk.old.console.state.asked ≡ false) ⊎ (failed ≡ true) }
    ensures ran { Ran desk.old.console.state desk.new.console.state desk.old.entries.items desk.new.entries.items }
    ensures turn { (b : Begun) → FailsBy failed b.failed (paints desk.old.entries.items) → has_ended false (sent desk.old.entries.items) ≡ side.old.ended
        → SenderTurn result b desk.old.console.state desk.new.console.state desk.old.entries.items desk.new.entries.items
        desk.old.replies.items desk.new.replies.items }
    ensures link { (before : Option (List ℕ)) → LinkIs desk.old.entries.items side.old failed before (I.left link.old) reader.old
        → LinkTurn result desk.new.entries.items side.new failed before (I.left link.new) reader.new }
    ensures few { IfOk result (λ _. side.new.ended ≡ false → reader.new ≤ 16777216) }
    ensures failed { side.new.end ≡ End.Link → (side.old.end ≡ End.Link) ⊎ Rose (I.faults link.old) (I.faults link.new) }
    ensures never_falls { I.faults link.old ≤ I.faults link.new }
{
    if side.ended {
        return Ok(false);
    }
    if failed {
        desk.enter(Actor::Terminal, Event::Hangup)?;
        side.ended = true;
        return Ok(true);
    }
    let read = reader.next(link);
    heard(desk, side, read)
}

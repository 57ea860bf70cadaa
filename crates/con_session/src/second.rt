//! The second terminal's turns: the terminal's side with its mirror, and a Paint that it follows.
ghost use Rattle.std.specs.Prelude.{◌≡◌, ◌⊎◌, ℕ, ◌≤◌, true, false, is_some, Bool, List, ◌∷◌, [], ◌++◌, IfOk, IfSome, OnErr, Option};
ghost use Rattle.con_units.specs.Words.View.{IsWhole};
ghost use Rattle.con_units.specs.declared.place.Size.{Size};
ghost use Rattle.con_outside.specs.Outside.{Rose};
ghost use Rattle.con_link.specs.LinkReading.{mirrored};
ghost use Rattle.con_link.specs.declared.mirror.MirrorFrame.{MirrorFrame};
ghost use Rattle.con_mirror.specs.Mirror.{AreSince};
ghost use Rattle.con_events.specs.declared.actor.Actor.TheVariants as actors;
ghost use Rattle.con_events.specs.declared.entry.Entry.{Entry};
ghost use Rattle.con_events.specs.declared.event.Event.TheVariants as events;
ghost use Rattle.con_machine.specs.History.{run};
ghost use Rattle.con_machine.specs.Painting.{view_now};
ghost use Rattle.con_laws.specs.Rounds.{Begun};
ghost use Rattle.con_machine.specs.State.{State};
ghost use Rattle.con_machine.specs.Turns.{has_ended, paints, sent};
ghost use Rattle.con_actors.specs.Words.Desk.{Ran, entry};
ghost use Rattle.con_actors.specs.Second.{Mirrors};
ghost use Rattle.con_actors.specs.Words.Second.{FollowTurn, GivenBehind, IsGiven, MirrorLinkIs, SecondIs, SecondTurn, Seconded, StaysGiven};
ghost use Rattle.con_actors.specs.Words.Sender.{FailsBy, LinkTurnBy, SenderTurn};

use crate::terminal::heard;
use con_actors::{
    Desk, Picture, Second, Side, as_plain_read, attended, draw_part, end_after, frame_length,
};
use con_events::{Actor, End, Event};
use con_link::LinkReader;
use con_mirror::Mirror;
use con_outside::{Fault, Sink, Source, write_whole};
use con_units::{Marks, OutOfMemory, View};

/// One turn of the terminal's side, as `terminal_turn`, of a link that may have a second terminal: the mirror attends to the frame,
/// before its event is entered.
pub fn mirrored_turn<I: Source>(
    desk: &mut Desk,
    reader: &mut LinkReader,
    link: &mut I,
    side: &mut Side,
    failed: bool,
    mirror: &mut Mirror,
) -> Result<bool, OutOfMemory>
    requires few { side.old.ended ≡ false → reader.old ≤ 16777216 }
    requires answered { (desk.old.console.state.asked ≡ false) ⊎ (failed ≡ true) }
    ensures ran { Ran desk.old.console.state desk.new.console.state desk.old.entries.items desk.new.entries.items }
    ensures turn { (b : Begun) → FailsBy failed b.failed (paints desk.old.entries.items) → has_ended false (sent desk.old.entries.items) ≡ side.old.ended
        → SenderTurn result b desk.old.console.state desk.new.console.state desk.old.entries.items desk.new.entries.items
        desk.old.replies.items desk.new.replies.items }
    ensures link { (s : State) (size : Size) (ends : List ℕ) (end : ℕ) (was now : Option (List ℕ)) (lost : Bool) (before : Option (List ℕ))
        → MirrorLinkIs s mirror.old.kept ends end was now lost desk.old.entries.items side.old failed before (I.left link.old) reader.old
        → LinkTurnBy mirrored (Seconded s side.new.ended mirror.new.kept ends end was now lost)
        (λ frames h. Mirrors s frames size ends was now lost true h) result desk.new.entries.items side.new failed before (I.left link.new) reader.new }
    ensures given { StaysGiven mirror.old.given mirror.new.given }
    ensures few { IfOk result (λ _. side.new.ended ≡ false → reader.new ≤ 16777216) }
    ensures failed { side.new.end ≡ End.Link → (side.old.end ≡ End.Link) ⊎ Rose (I.faults link.old) (I.faults link.new) }
    ensures never_falls { I.faults link.old ≤ I.faults link.new }
{
    if side.ended {
        return Ok(false);
    }
    if failed {
        desk.enter(Actor::Terminal, Event::Hangup)?;
        side.ended = true;
        return Ok(true);
    }
    let read = reader.next_mirrored(link);
    attended(mirror, &read)?;
    heard(desk, side, as_plain_read(read))
}

/// Follows a Paint of this view, in which a row without a mark is as it was in the view that was given last. Behind a failure of the
/// sink nothing more is written to it, and the frames go on.
pub fn follow<N: Sink>(
    second: &mut Second,
    view: &View,
    marks: &Marks,
    sink: &mut N,
) -> Result<(), OutOfMemory>
    requires view { IsWhole view.now }
    requires marks { AreSince second.old.mirror.given view.now marks.now }
    ensures turn { (s : State) (ended : Bool) (ps : List (List ℕ)) (before : Option (List ℕ)) (frames : List MirrorFrame) (h : List Entry)
        → view.now ≡ view_now (run s h)
        → SecondIs s ended second.old.mirror.kept ps second.old.ends.items second.old.end before (N.written sink.old) second.old.failed frames h
        → SecondTurn result s ended second.new.mirror.kept second.new.ends.items second.new.end before (N.written sink.new) second.new.failed frames
        (h ++ entry actors.Painter events.Paint ∷ []) }
    ensures given { IfOk result (λ _. IsGiven view.now second.new.mirror.given) }
    ensures still { second.old.failed ≡ true → sink.new ≡ sink.old }
    ensures failed { second.new.failed ≡ true → (second.old.failed ≡ true) ⊎ Rose (N.faults sink.old) (N.faults sink.new) }
    ensures never_falls { N.faults sink.old ≤ N.faults sink.new }
{
    if second.ends.reserve(1).is_err() {
        return Err(OutOfMemory);
    }
    draw_part(&mut second.mirror, &mut second.out, view, marks)?;
    let end = end_after(second.end, frame_length(&second.out))?;
    second.end = end;
    second.ends.push_reserved(end);
    if second.failed {
        return Ok(());
    }
    match write_whole(sink, second.out.as_slice()) {
        Ok(()) => Ok(()),
        Err(Fault::Failed) => {
            second.failed = true;
            Ok(())
        }
        Err(Fault::OutOfMemory) => Err(OutOfMemory),
    }
}

/// Follows a turn of the painter, in which this was painted, if a Paint was entered. It answers whether one was.
pub fn followed<N: Sink>(
    second: &mut Second,
    shown: Option<Picture>,
    sink: &mut N,
) -> Result<bool, OutOfMemory>
    requires view { IfSome shown (λ p. IsWhole p.view) }
    requires marks { IfSome shown (λ p. AreSince second.old.mirror.given p.view p.marks) }
    ensures told { IfOk result (λ acted. acted ≡ is_some shown) }
    ensures lack { OnErr result (is_some shown ≡ true) }
    ensures turn { (s : State) (ended : Bool) (ps : List (List ℕ)) (before : Option (List ℕ)) (frames : List MirrorFrame) (h : List Entry)
        → IfSome shown (λ p. p.view ≡ view_now (run s h))
        → SecondIs s ended second.old.mirror.kept ps second.old.ends.items second.old.end before (N.written sink.old) second.old.failed frames h
        → FollowTurn result shown s ended second.new.mirror.kept second.new.ends.items second.new.end before (N.written sink.new) second.new.failed frames h }
    ensures given { IfOk result (λ _. GivenBehind shown second.old.mirror.given second.new.mirror.given) }
    ensures still { second.old.failed ≡ true → sink.new ≡ sink.old }
    ensures failed { second.new.failed ≡ true → (second.old.failed ≡ true) ⊎ Rose (N.faults sink.old) (N.faults sink.new) }
    ensures never_falls { N.faults sink.old ≤ N.faults sink.new }
{
    match shown {
        Some(picture) => {
            follow(second, &picture.view, &picture.marks, sink)?;
            Ok(true)
        }
        None => Ok(false),
    }
}

//! The thread of the terminal's side, until it returns.
ghost use Rattle.std.specs.Prelude.{◌≡◌, ◌⊎◌, ◌≤◌, not, IfOk, IfErr};
ghost use Rattle.con_outside.specs.Outside.{Rose};
ghost use Rattle.con_book.specs.Passes.{book_id, pass_id};
ghost use Rattle.con_events.specs.declared.actor.Actor.TheVariants as actors;
ghost use Rattle.con_events.specs.declared.event.Event.TheVariants as events;
ghost use Rattle.con_events.specs.declared.end.End.TheVariants as ends;
ghost use Rattle.con_machine.specs.History.{run};
ghost use Rattle.con_threads.specs.Scribe.{IsScribe, IsSameScribe, SeesMore, history, opened};
ghost use Rattle.con_threads.specs.Sides.{IsSending, HasSentOn, IsSideThread};

use crate::work::moved::Moved;
use con_actors::{end_by_fault, ends_the_link, event_for};
use con_book::Book;
use con_events::Event;
use con_link::LinkFault;
use con_outside::Source;
use con_threads::{Ledger, Scribe, SideThread, Signals, pass_on};
use con_units::OutOfMemory;
use std::sync::Wait;
use std::sync::atomic::Ordering::SeqCst;

// Whether nothing is asked for that was not painted.
fn is_served<R: Wait>(scribe: &mut Scribe, rt: &R, book: &Book<Ledger>) -> bool
    requires book { pass_id scribe.old.pass ≡ book_id book.now }
    requires scribe { IsScribe scribe.old }
    requires actor { scribe.old.actor ≡ actors.Terminal }
    ensures same { IsSameScribe scribe.old scribe.new }
    ensures scribe { IsScribe scribe.new }
    ensures seen { SeesMore (opened scribe.old) actors.Terminal (history scribe.old) (history scribe.new) }
    ensures served { result ≡ not (run (opened scribe.new) (history scribe.new)).asked }
{
    scribe.check(rt, book, &Event::Quiet)
}

// Hangs up, which may be done at any time.
fn hang_up<R: Wait>(scribe: &mut Scribe, rt: &R, book: &Book<Ledger>) -> Result<(), OutOfMemory>
    requires book { pass_id scribe.old.pass ≡ book_id book.now }
    requires scribe { IsScribe scribe.old }
    requires actor { scribe.old.actor ≡ actors.Terminal }
    ensures same { IsSameScribe scribe.old scribe.new }
    ensures scribe { IsScribe scribe.new }
    ensures sent { IfOk result (λ _. IsSending (opened scribe.old) events.Hangup (history scribe.old) (history scribe.new)) }
    ensures refused { IfErr result (λ _. SeesMore (opened scribe.old) actors.Terminal (history scribe.old) (history scribe.new)) }
{
    scribe.enter(rt, book, Event::Hangup)?;
    Ok(())
}

// Enters the event of the next frame, once nothing is asked for that was not painted. It hangs up where the terminal has failed,
// and where no frame is read. It may wait for the link.
fn turn<R: Wait, I: Source>(
    side: &mut SideThread,
    rt: &R,
    book: &Book<Ledger>,
    failed: bool,
    link: &mut I,
) -> Result<Moved, OutOfMemory>
    requires book { pass_id side.old.scribe.pass ≡ book_id book.now }
    requires is { IsSideThread side.old }
    ensures on { HasSentOn side.old side.new (I.left link.old) (I.left link.new) }
    ensures failed { side.new.side.end ≡ ends.Link → (side.old.side.end ≡ ends.Link) ⊎ Rose (I.faults link.old) (I.faults link.new) }
    ensures never_falls { I.faults link.old ≤ I.faults link.new }
{
    if side.side.ended {
        return Ok(Moved::Gone);
    }
    if side.broken {
        return Ok(Moved::Gone);
    }
    if failed {
        hang_up(&mut side.scribe, rt, book)?;
        side.side.ended = true;
        side.hung = true;
        return Ok(Moved::Entered);
    }
    if !is_served(&mut side.scribe, rt, book) {
        return Ok(Moved::Waits);
    }
    side.broken = true;
    match side.reader.next(link) {
        Ok(frame) => {
            let ends = ends_the_link(&frame);
            if !pass_on(&mut side.scribe, rt, book, event_for(frame))? {
                unreachable!()
            }
            side.side.ended = ends;
            side.broken = false;
            Ok(Moved::Entered)
        }
        Err(LinkFault::OutOfMemory) => Err(OutOfMemory),
        Err(fault) => {
            hang_up(&mut side.scribe, rt, book)?;
            side.side.ended = true;
            side.side.end = end_by_fault(fault);
            side.broken = false;
            Ok(Moved::Entered)
        }
    }
}

// Sends on until the link has ended, or somebody halts all.
fn send_all<R: Wait, I: Source>(
    side: &mut SideThread,
    rt: &R,
    book: &Book<Ledger>,
    signals: &Signals,
    link: &mut I,
)
    requires book { pass_id side.old.scribe.pass ≡ book_id book.now }
    requires is { IsSideThread side.old }
    ensures on { HasSentOn side.old side.new (I.left link.old) (I.left link.new) }
    ensures failed { side.new.side.end ≡ ends.Link → (side.old.side.end ≡ ends.Link) ⊎ Rose (I.faults link.old) (I.faults link.new) }
    ensures never_falls { I.faults link.old ≤ I.faults link.new }
{
    for _ in rt.forever() {
        let mark = signals.bell.mark();
        if signals.halt.load(SeqCst) {
            return;
        }
        let has_failed = signals.failed.load(SeqCst);
        match turn(side, rt, book, has_failed, link) {
            Ok(Moved::Entered) => signals.bell.ring(),
            Ok(Moved::Waits) => signals.bell.wait(rt, mark),
            Ok(Moved::Gone) => return,
            Err(OutOfMemory) => {
                signals.stop();
                return;
            }
        }
    }
    unreachable!()
}

/// Sends on, once all threads are made, until the link has ended or somebody halts all, and then leaves the others. It hangs up where
/// the terminal takes no more bytes.
pub fn side_work<R: Wait, I: Source>(
    side: &mut SideThread,
    rt: &R,
    book: &Book<Ledger>,
    signals: &Signals,
    link: &mut I,
)
    requires book { pass_id side.old.scribe.pass ≡ book_id book.now }
    requires is { IsSideThread side.old }
    ensures on { HasSentOn side.old side.new (I.left link.old) (I.left link.new) }
    ensures failed { side.new.side.end ≡ ends.Link → (side.old.side.end ≡ ends.Link) ⊎ Rose (I.faults link.old) (I.faults link.new) }
    ensures never_falls { I.faults link.old ≤ I.faults link.new }
{
    signals.wait_for_all(rt);
    send_all(side, rt, book, signals, link);
    signals.leave();
}

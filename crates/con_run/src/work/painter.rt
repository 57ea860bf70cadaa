//! The painter's thread, until it returns, and the Paints that are due once all have returned.
ghost use Rattle.std.specs.Prelude.{◌≡◌, ◌⊎◌, ◌≤◌, true, false, Some, Ok, IfOk};
ghost use Rattle.std.specs.Option.{IfNone};
ghost use Rattle.con_outside.specs.Outside.{Rose};
ghost use Rattle.con_events.specs.declared.actor.Actor.TheVariants as actors;
ghost use Rattle.con_events.specs.declared.event.Event.TheVariants as events;
ghost use Rattle.con_machine.specs.History.{run};
ghost use Rattle.con_machine.specs.Step.{is_ready};
ghost use Rattle.con_pipe.specs.PipeEnds.{is_finished};
ghost use Rattle.con_book.specs.Passes.{book_id, pass_id};
ghost use Rattle.con_threads.specs.Scribe.{IsSameScribe, opened, history};
ghost use Rattle.con_threads.specs.Painters.{IsPainterThread, HasDrawn, PaintsTo, HasFinished};

use con_book::Book;
use con_outside::{Fault, Sink, write_whole};
use con_pipe::PipeIn;
use con_threads::{Ledger, PainterThread, Signals};
use con_units::OutOfMemory;
use std::alloc::Global;
use std::sync::Wait;
use std::sync::atomic::Ordering::SeqCst;

// Whether its thread is to return: it had no memory, somebody halts all, the terminal has failed, or nobody else is at work.
fn is_over(painter: &PainterThread, signals: &Signals) -> bool
    ensures { result ≡ false → painter.now.broken ≡ false }
{
    if painter.broken {
        return true;
    }
    if signals.halt.load(SeqCst) {
        return true;
    }
    if signals.failed.load(SeqCst) {
        return true;
    }
    signals.others.load(SeqCst) == 0
}

/// Paints, once all threads are made, until all others have returned, somebody halts all or the terminal has failed. Each frame goes
/// into the pipe, and at last the end mark.
pub fn painter_work<R: Wait>(
    painter: &mut PainterThread,
    rt: &R,
    alloc: Global,
    book: &Book<Ledger>,
    signals: &Signals,
    put: &mut PipeIn,
)
    requires book { pass_id painter.old.scribe.pass ≡ book_id book.now }
    requires is { IsPainterThread painter.old }
    requires open { is_finished put.old ≡ false }
    ensures finished { is_finished put.new ≡ true }
    ensures drawn { HasDrawn painter.old painter.new put.old put.new }
{
    signals.wait_for_all(rt);
    for _ in rt.forever() {
        let mark = signals.bell.mark();
        if is_over(painter, signals) {
            put.finish(rt);
            return;
        }
        match painter.paint(rt, alloc, book) {
            Ok(Some(piece)) => {
                signals.bell.ring();
                put.push(rt, piece);
            }
            Ok(None) => signals.bell.wait(rt, mark),
            Err(_) => {
                signals.stop();
                put.finish(rt);
                return;
            }
        }
    }
    unreachable!()
}

// A Paint with its frame, which goes to the sink, where one is ready: whether the sink failed. `None`: none was entered.
fn paint_to<R: Wait, O: Sink>(
    painter: &mut PainterThread,
    rt: &R,
    alloc: Global,
    book: &Book<Ledger>,
    term: &mut O,
) -> Result<Option<bool>, OutOfMemory>
    requires book { pass_id painter.old.scribe.pass ≡ book_id book.now }
    requires is { IsPainterThread painter.old }
    requires whole { painter.old.broken ≡ false }
    ensures same { IsSameScribe painter.old.scribe painter.new.scribe }
    ensures is { IsPainterThread painter.new }
    ensures whole { IfOk result (λ _. painter.new.broken ≡ false) }
    ensures idle { IfOk result (λ failed. IfNone failed
        (is_ready (run (opened painter.new.scribe) (history painter.new.scribe)) actors.Painter events.Paint ≡ false)) }
    ensures failed { result ≡ Ok (Some true) → Rose (O.faults term.old) (O.faults term.new) }
    ensures never_falls { O.faults term.old ≤ O.faults term.new }
    ensures drew { PaintsTo result painter.old painter.new (O.written term.old) (O.written term.new) }
{
    match painter.paint(rt, alloc, book)? {
        None => Ok(None),
        Some(piece) => match write_whole(term, piece.as_slice()) {
            Ok(()) => Ok(Some(false)),
            Err(Fault::Failed) => Ok(Some(true)),
            Err(Fault::OutOfMemory) => Err(OutOfMemory),
        },
    }
}

/// When all other threads have ended and all pieces are written: the Paints that are due, with their frames to the sink, until
/// none is ready or the sink fails. Answers whether it has failed; where it had before, nothing is entered.
pub fn paint_due<R: Wait, O: Sink>(
    painter: &mut PainterThread,
    rt: &R,
    alloc: Global,
    book: &Book<Ledger>,
    term: &mut O,
    failed: bool,
) -> Result<bool, OutOfMemory>
    requires book { pass_id painter.old.scribe.pass ≡ book_id book.now }
    requires is { IsPainterThread painter.old }
    requires whole { painter.old.broken ≡ false }
    ensures same { IsSameScribe painter.old.scribe painter.new.scribe }
    ensures is { IsPainterThread painter.new }
    ensures idle { IfOk result (λ later. later ≡ false
        → is_ready (run (opened painter.new.scribe) (history painter.new.scribe)) actors.Painter events.Paint ≡ false) }
    ensures stays { IfOk result (λ later. failed ≡ true → later ≡ true) }
    ensures failed { IfOk result (λ later. later ≡ true → (failed ≡ true) ⊎ Rose (O.faults term.old) (O.faults term.new)) }
    ensures never_falls { O.faults term.old ≤ O.faults term.new }
    ensures finished { HasFinished result painter.old painter.new (O.written term.old) (O.written term.new) failed }
{
    if failed {
        return Ok(true);
    }
    for _ in rt.forever() {
        match paint_to(painter, rt, alloc, book, term)? {
            None => return Ok(false),
            Some(true) => return Ok(true),
            Some(false) => {}
        }
    }
    unreachable!()
}

//! The painter's thread.
ghost use Rattle.std.specs.Prelude.{◌≡◌, true, false, IfOk, OnErr};
ghost use Rattle.std.specs.Option.{IfNone};
ghost use Rattle.con_events.specs.declared.actor.Actor.TheVariants as actors;
ghost use Rattle.con_events.specs.declared.event.Event.TheVariants as events;
ghost use Rattle.con_machine.specs.History.{run};
ghost use Rattle.con_machine.specs.Step.{is_ready};
ghost use Rattle.con_actors.specs.Painting.{IsTied};
ghost use Rattle.con_book.specs.Passes.{book_id, pass_id};
ghost use Rattle.con_threads.specs.Scribe.{IsScribe, IsSameScribe, opened, history};
ghost use Rattle.con_threads.specs.Painters.{IsPainterThread, PainterTurn};

use crate::ledger::{Ledger, Told};
use crate::scribe::Scribe;
use con_actors::{end_after, frame_length};
use con_book::Book;
use con_events::Event;
use con_paint::Painter;
use con_session::draw;
use con_units::{Bytes, OutOfMemory};
use std::alloc::Global;
use std::sync::Wait;

/// The painter, and where each frame ends in the stream. `broken`: it had no memory.
#[derive(Drop)]
pub struct PainterThread {
    pub scribe: Scribe,
    pub painter: Painter,
    pub ends: Vec<u64>,
    /// How many bytes the frames have.
    pub end: u64,
    pub broken: bool,
}

impl PainterThread {
    // A Paint with its frame, where one is ready. The frame is made when the turn has ended.
    fn turn<R: Wait>(
        &mut self,
        rt: &R,
        alloc: Global,
        book: &Book<Ledger>,
    ) -> Result<Option<Bytes>, OutOfMemory>
        requires book { pass_id self.old.scribe.pass ≡ book_id book.now }
        requires scribe { IsScribe self.old.scribe }
        requires actor { self.old.scribe.actor ≡ actors.Painter }
        requires tied { IsTied (run (opened self.old.scribe) (history self.old.scribe)) self.old.painter }
        ensures same { IsSameScribe self.old.scribe self.new.scribe }
        ensures scribe { IsScribe self.new.scribe }
        ensures flag { self.new.broken ≡ self.old.broken }
        ensures tied { IfOk result (λ _. IsTied (run (opened self.new.scribe) (history self.new.scribe)) self.new.painter) }
        ensures idle { IfOk result (λ piece. IfNone piece (is_ready
            (run (opened self.new.scribe) (history self.new.scribe)) actors.Painter events.Paint ≡ false)) }
        ensures drew { PainterTurn result self.old self.new }
    {
        if self.ends.reserve(1).is_err() {
            return Err(OutOfMemory);
        }
        match self.scribe.enter_if_ready(rt, book, Event::Paint)? {
            None => Ok(None),
            Some(Told::Brief(_)) => unreachable!(),
            Some(Told::Picture(picture)) => {
                let mut out = Vec::new(alloc);
                draw(&mut self.painter, &mut out, &picture)?;
                let end = end_after(self.end, frame_length(&out))?;
                self.end = end;
                self.ends.push_reserved(end);
                Ok(Some(Bytes(out)))
            }
        }
    }

    /// A Paint with its frame, where one is ready. `None`: none was entered. Where there was no memory a Paint may have no frame.
    pub fn paint<R: Wait>(
        &mut self,
        rt: &R,
        alloc: Global,
        book: &Book<Ledger>,
    ) -> Result<Option<Bytes>, OutOfMemory>
        requires book { pass_id self.old.scribe.pass ≡ book_id book.now }
        requires is { IsPainterThread self.old }
        requires whole { self.old.broken ≡ false }
        ensures same { IsSameScribe self.old.scribe self.new.scribe }
        ensures is { IsPainterThread self.new }
        ensures whole { IfOk result (λ _. self.new.broken ≡ false) }
        ensures broken { OnErr result (self.new.broken ≡ true) }
        ensures idle { IfOk result (λ piece. IfNone piece (is_ready
            (run (opened self.new.scribe) (history self.new.scribe)) actors.Painter events.Paint ≡ false)) }
        ensures drew { PainterTurn result self.old self.new }
    {
        match self.turn(rt, alloc, book) {
            Ok(piece) => Ok(piece),
            Err(e) => {
                self.broken = true;
                Err(e)
            }
        }
    }
}

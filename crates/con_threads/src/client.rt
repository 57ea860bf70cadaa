//! A client's thread.
ghost use Rattle.std.specs.Prelude.{◌≡◌, false};
ghost use Rattle.con_book.specs.Passes.{book_id, pass_id};
ghost use Rattle.con_handlers.specs.Boxes.{boxed};
ghost use Rattle.con_laws.specs.Rounds.{Begun};
ghost use Rattle.con_actors.specs.DoorTurns.{ClientAt};
ghost use Rattle.con_actors.specs.Held.{HandsStand, HasTurned};
ghost use Rattle.con_threads.specs.Clients.{IsClientThread};
ghost use Rattle.con_threads.specs.Post.{AreOthers};
ghost use Rattle.con_threads.specs.Scribe.{opened, history, IsScribe, IsSameScribe};

use crate::ledger::Ledger;
use crate::post::Post;
use crate::scribe::Scribe;
use con_actors::Seat;
use con_book::Book;
use con_events::{Actor, Step};
use con_outside::Gate;
use con_session::act;
use con_units::OutOfMemory;
use std::sync::Wait;

/// A client with its script. `broken`: it had no memory behind an entry.
#[derive(Drop)]
pub struct ClientThread<'a> {
    pub scribe: Scribe,
    pub seat: Seat,
    pub steps: &'a [Step],
    pub number: u8,
    pub broken: bool,
}

impl ClientThread<'_> {
    /// A turn at the console in the lock, which is con_session's: whether it entered an event.
    pub fn turn<R: Wait, G: Gate>(
        &mut self,
        rt: &R,
        book: &Book<Ledger>,
        gate: &G,
    ) -> Result<bool, OutOfMemory>
        requires book { pass_id self.old.scribe.pass ≡ book_id book.now }
        requires is { IsClientThread memory self.old }
        requires here { self.old.seat.worker.gone ≡ false }
        ensures same { IsSameScribe self.old.scribe self.new.scribe }
        ensures scribe { IsScribe self.new.scribe }
        ensures rest { (self.new.steps.now ≡ self.old.steps.now) × (self.new.number ≡ self.old.number) × (self.new.broken ≡ self.old.broken) }
        ensures turned { (b : Begun) → opened self.old.scribe ≡ b.state
            → ClientAt b self.old.number (history self.old.scribe) self.old.steps.now self.old.seat.worker
            → HandsStand b self.old.number (history self.old.scribe) (boxed memory) self.old.seat.hands
            → HasTurned (AreOthers (Actor.Client self.old.number)) result b self.old.number self.old.steps.now (history self.old.scribe)
            (history self.new.scribe) self.new.seat.worker (boxed memory) self.new.seat.hands }
    {
        let mut post = Post::at(rt, book, &mut self.scribe);
        let done = act(
            &mut post,
            gate,
            &mut self.seat.worker,
            &mut self.seat.hands,
            self.steps,
            self.number,
        );
        done
    }
}

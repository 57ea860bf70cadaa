//! An actor at the console in the lock.
ghost use Rattle.std.specs.Prelude.{◌≡◌, [], true, false, Some, IfOk, IfErr, IfSome};
ghost use Rattle.std.specs.Option.{IfNone};
ghost use Rattle.con_book.specs.Lock.{gave, newcomer};
ghost use Rattle.con_book.specs.Passes.{book_id, pass_id, view_of, actor_of, seen};
ghost use Rattle.con_book.specs.Turn.{has_pass};
ghost use Rattle.con_machine.specs.History.{run};
ghost use Rattle.con_machine.specs.Numbered as numbers;
ghost use Rattle.con_machine.specs.State.{State};
ghost use Rattle.con_machine.specs.Step.{is_ready};
ghost use Rattle.con_threads.specs.Scribe.{opened, history, IsScribe, IsSameScribe, SeesMore, HasEntered};

use crate::ledger::{Ledger, Told};
use con_book::{Book, Pass};
use con_events::{Actor, Event};
use con_units::OutOfMemory;
use std::sync::Wait;

/// The right of one actor to enter events. Contracts see its `history`: what it has seen of the console's.
#[derive(Drop)]
pub struct Scribe {
    pub pass: Pass<Ledger>,
    pub actor: Actor,
}

impl Scribe {
    /// The scribe of an actor that had none.
    pub fn new(book: &Book<Ledger>, opening: &mut Pass<Ledger>, number: u32, actor: Actor) -> Scribe
        requires book { pass_id opening.old ≡ book_id book.now }
        requires opening { ((view_of opening.old).opens ≡ true) × (seen opening.old ≡ []) × ((view_of opening.old).start.replies ≡ []) }
        requires fresh { has_pass number (view_of opening.old) ≡ false }
        requires named { numbers.actor_of number ≡ Some actor }
        ensures opening { (pass_id opening.new ≡ pass_id opening.old) × (view_of opening.new ≡ gave number (view_of opening.old)) }
        ensures book { pass_id result.pass ≡ pass_id opening.old }
        ensures view { view_of result.pass ≡ newcomer number (view_of opening.old) }
        ensures scribe { IsScribe result }
        ensures actor { (result.actor ≡ actor) × (actor_of result.pass ≡ number) }
        ensures history { (opened result ≡ (view_of opening.old).start.state) × (history result ≡ []) }
    {
        Scribe {
            pass: book.pass(opening, number),
            actor,
        }
    }

    /// Enters an event that is ready in every state. Where there is no memory nothing was entered.
    pub fn enter<R: Wait>(
        &mut self,
        rt: &R,
        book: &Book<Ledger>,
        event: Event,
    ) -> Result<Told, OutOfMemory>
        requires book { pass_id self.old.pass ≡ book_id book.now }
        requires scribe { IsScribe self.old }
        requires ready { (s : State) → is_ready s self.old.actor event ≡ true }
        ensures same { IsSameScribe self.old self.new }
        ensures scribe { IsScribe self.new }
        ensures entered { IfOk result (λ told. HasEntered (opened self.old) self.old.actor event told (history self.old) (history self.new)) }
        ensures refused { IfErr result (λ _. SeesMore (opened self.old) self.old.actor (history self.old) (history self.new)) }
    {
        book.turn(rt, &mut self.pass, event)
    }

    /// Enters an event if it is ready.
    pub fn enter_if_ready<R: Wait>(
        &mut self,
        rt: &R,
        book: &Book<Ledger>,
        event: Event,
    ) -> Result<Option<Told>, OutOfMemory>
        requires book { pass_id self.old.pass ≡ book_id book.now }
        requires scribe { IsScribe self.old }
        ensures same { IsSameScribe self.old self.new }
        ensures scribe { IsScribe self.new }
        ensures entered { IfOk result (λ answer. IfSome answer
            (λ told. HasEntered (opened self.old) self.old.actor event told (history self.old) (history self.new))) }
        ensures blocked { IfOk result (λ answer. IfNone answer
            (SeesMore (opened self.old) self.old.actor (history self.old) (history self.new)
            × (is_ready (run (opened self.new) (history self.new)) self.new.actor event ≡ false))) }
        ensures refused { IfErr result (λ _. SeesMore (opened self.old) self.old.actor (history self.old) (history self.new)) }
    {
        book.turn_if_ready(rt, &mut self.pass, event)
    }

    /// Whether an event is ready. It enters nothing and takes no memory.
    pub fn check<R: Wait>(&mut self, rt: &R, book: &Book<Ledger>, event: &Event) -> bool
        requires book { pass_id self.old.pass ≡ book_id book.now }
        requires scribe { IsScribe self.old }
        ensures same { IsSameScribe self.old self.new }
        ensures scribe { IsScribe self.new }
        ensures seen { SeesMore (opened self.old) self.old.actor (history self.old) (history self.new) }
        ensures ready { result ≡ is_ready (run (opened self.new) (history self.new)) self.new.actor event.now }
    {
        book.check(rt, &mut self.pass, event)
    }
}

//! What a turn, a new pass and a pass that was taken in tell.

ghost use Rattle.std.specs.Prelude.{◌≡◌, ℕ, List, [], ◌∷◌, ◌++◌, true, false, IfOk, IfSome};
ghost use Rattle.con_book.specs.History.{after, own, entry};
ghost use Rattle.con_book.specs.Passes.{book_id, pass_id, view_of, actor_of, seen, mine};
ghost use Rattle.con_book.specs.Turn.{has_pass};
ghost use Rattle.con_book.specs.declared.history.Logged.{Logged};
ghost use Rattle.tests_book.specs.Calls.{WasReady, AtBook};

use con_book::{Book, Machine, Pass};
use con_units::OutOfMemory;
use std::sync::Wait;

/// The event was ready where it stands.
pub fn entered<R: Wait, M: Machine>(
    rt: &R,
    book: &Book<M>,
    pass: &mut Pass<M>,
    event: M::Event,
) -> Result<Option<M::Reply>, OutOfMemory>
    requires { AtBook (book_id book.now) pass.old }
    ensures { IfOk result (λ answer. IfSome answer (λ _. WasReady M.next M.is_ready (view_of pass.new) event)) }
{
    book.turn_if_ready(rt, pass, event)
}

/// A new pass has no entry of its own.
pub fn given<M: Machine>(book: &Book<M>, opening: &mut Pass<M>, actor: u32) -> Pass<M>
    requires book { AtBook (book_id book.now) opening.old }
    requires opening { (view_of opening.old).opens ≡ true }
    requires fresh { has_pass actor (view_of opening.old) ≡ false }
    ensures { own actor (seen result) ≡ [] }
{
    book.pass(opening, actor)
}

/// A pass that takes another one in has no entry of its own but its events.
pub fn taken_in<M: Machine>(book: &Book<M>, into: &mut Pass<M>, other: Pass<M>)
    requires book { AtBook (book_id book.now) into.old × AtBook (book_id book.now) other }
    requires other { (view_of other).opens ≡ false }
    ensures { own (actor_of into.old) (seen into.new) ≡ mine into.old }
{
    book.join(into, other);
}

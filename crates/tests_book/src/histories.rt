//! Laws of histories at passes.

ghost use Rattle.std.specs.Prelude.{◌≡◌, ℕ, ◌+◌, ◌<◌, List, ◌++◌, All, ◌⊎◌, ◌&&◌, true, false, length};
ghost use Rattle.con_book.specs.Counted.{counting};
ghost use Rattle.con_book.specs.History.{StartsWith, after, own, is_legal};
ghost use Rattle.con_book.specs.Passes.{book_id, view_of, actor_of, seen};
ghost use Rattle.con_book.specs.declared.history.Logged.{Logged};
ghost use Rattle.con_book.specs.declared.room.Counted.{Counted};
ghost use Rattle.tests_book.specs.Calls.{AtBook};

use con_book::laws::{
    a_count_changes_nothing, a_greater_actor_has_no_pass, beginnings_begin_each_other,
    histories_are_joined,
};
use con_book::{Book, Machine, Pass};

/// What more entries do to what a pass has seen.
pub fn seen_further<M: Machine>(pass: &Pass<M>)
    ensures own { (more : List (Logged M.Event))
        → own (actor_of pass.now) (seen pass.now ++ more) ≡ own (actor_of pass.now) (seen pass.now) ++ own (actor_of pass.now) more }
    ensures after { (more : List (Logged M.Event))
        → after M.next (view_of pass.now).start (seen pass.now ++ more) ≡ after M.next (after M.next (view_of pass.now).start (seen pass.now)) more }
    ensures legal { (more : List (Logged M.Event))
        → is_legal M.next M.is_ready (view_of pass.now).start (seen pass.now ++ more)
        ≡ (is_legal M.next M.is_ready (view_of pass.now).start (seen pass.now)
        && is_legal M.next M.is_ready (after M.next (view_of pass.now).start (seen pass.now)) more) }
{
    histories_are_joined::<M>();
    let _pass = pass;
}

/// Of what two passes have seen, one begins the other.
pub fn one_has_seen_the_other<M: Machine>(book: &Book<M>, into: &mut Pass<M>, other: Pass<M>)
    requires book { AtBook (book_id book.now) into.old × AtBook (book_id book.now) other }
    requires other { (view_of other).opens ≡ false }
    ensures { StartsWith (seen into.old) (seen other) ⊎ StartsWith (seen other) (seen into.old) }
{
    beginnings_begin_each_other::<M>();
    book.join(into, other);
}

/// A pass for an actor above all that were given one.
pub fn next_actor<M: Machine>(book: &Book<M>, opening: &mut Pass<M>, actor: u32) -> Pass<M>
    requires book { AtBook (book_id book.now) opening.old }
    requires opening { (view_of opening.old).opens ≡ true }
    requires above { (0 < actor) × All (λ a. a < actor) (view_of opening.old).made }
    ensures { AtBook (book_id book.now) result }
{
    a_greater_actor_has_no_pass::<M>();
    book.pass(opening, actor)
}

/// Where a pass begins with a machine that counts, what it has seen does to the machine what it does without the count, and the count
/// is as much higher.
pub fn counted_alike<M: Machine>(pass: &Pass<M>)
    ensures after { (c : Counted M.State) → c.state ≡ (view_of pass.now).start
        → (after (counting M.next) c (seen pass.now)).state ≡ after M.next (view_of pass.now).start (seen pass.now) }
    ensures count { (c : Counted M.State) → (after (counting M.next) c (seen pass.now)).entered ≡ c.entered + length (seen pass.now) }
    ensures legal { (c : Counted M.State) → c.state ≡ (view_of pass.now).start
        → is_legal (counting M.next) (λ c. M.is_ready c.state) c (seen pass.now) ≡ is_legal M.next M.is_ready (view_of pass.now).start (seen pass.now) }
{
    a_count_changes_nothing::<M>();
    let _pass = pass;
}

//! What follows from the definitions of histories, and of what a pass knows.
ghost use Rattle.std.specs.Prelude.{◌≡◌, ℕ, ◌+◌, ◌<◌, List, ◌++◌, length, All, ◌⊎◌, ◌&&◌, false};
ghost use Rattle.con_book.specs.History.{StartsWith, after, own, is_legal};
ghost use Rattle.con_book.specs.Counted.{counting};
ghost use Rattle.con_book.specs.Turn.{has_pass};
ghost use Rattle.con_book.specs.declared.history.Logged.{Logged};
ghost use Rattle.con_book.specs.declared.room.Counted.{Counted};
ghost use Rattle.con_book.specs.declared.view.PassView.{PassView};

use crate::machine::Machine;

/// Of two histories, one after the other: the events of an actor, the state after them, and whether each event is ready.
pub fn histories_are_joined<M: Machine>()
    ensures own { (a : ℕ) (xs ys : List (Logged M.Event)) → own a (xs ++ ys) ≡ own a xs ++ own a ys }
    ensures after { (s : M.State) (xs ys : List (Logged M.Event)) → after M.next s (xs ++ ys) ≡ after M.next (after M.next s xs) ys }
    ensures legal { (s : M.State) (xs ys : List (Logged M.Event)) → is_legal M.next M.is_ready s (xs ++ ys)
        ≡ (is_legal M.next M.is_ready s xs && is_legal M.next M.is_ready (after M.next s xs) ys) }
{}

/// Of two beginnings of one history, one begins the other.
pub fn beginnings_begin_each_other<M: Machine>()
    ensures { (zs xs ys : List (Logged M.Event)) → StartsWith zs xs → StartsWith zs ys → StartsWith xs ys ⊎ StartsWith ys xs }
{}

/// A machine that counts its events does beside what it does without the count, and is ready alike.
pub fn a_count_changes_nothing<M: Machine>()
    ensures after { (s : Counted M.State) (xs : List (Logged M.Event)) → after (counting M.next) s xs
        ≡ record { state = after M.next s.state xs; entered = s.entered + length xs } }
    ensures legal { (s : Counted M.State) (xs : List (Logged M.Event)) → is_legal (counting M.next) (λ c. M.is_ready c.state) s xs
        ≡ is_legal M.next M.is_ready s.state xs }
{}

/// An actor with a number above all that were given a pass has none.
pub fn a_greater_actor_has_no_pass<M: Machine>()
    ensures { (actor : ℕ) (v : PassView M.State M.Event) → 0 < actor → All (λ a. a < actor) v.made → has_pass actor v ≡ false }
{}

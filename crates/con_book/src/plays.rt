// The rule of a book's table, and the kinds of step on it.
ghost use Rattle.std.specs.Prelude.{ℕ};

use crate::kept::Kept;
use crate::machine::Machine;
use crate::view::PassView;
use atomic_table::{Join, Play, Split, TableRule};
use std::marker::{Brand, PhantomData};
use std::snapshot::Snapshot;

/// The rule: the tickets are served in the order of their numbers, and the log is one legal history.
pub struct Turns<M> {
    marker: PhantomData<M>,
}

impl<M: Machine> TableRule<Option<Kept<M, M::Event>>, PassView<M::State, M::Event>, Snapshot<M>>
    for Turns<M> {
    ghost use Rattle.con_book.specs.Lock.{Orderly, opener, moving};

    ghost holds = { λ key. Orderly M.state (moving M.next M.is_ready M.blank) (M.state key.value) };

    ghost first = { λ key. opener (M.state key.value) };
}

/// Draws the next ticket.
pub struct Draw;

impl<M, S, E> Play<Option<Kept<M, E>>, PassView<S, E>> for Draw {
    ghost use Rattle.con_book.specs.Plays.{Draws};

    ghost then = { Draws };
}

/// Looks which ticket is served. Where it is its own, it takes the slot.
pub struct Look<M> {
    marker: PhantomData<M>,
}

impl<M: Machine> Play<Option<Kept<M, M::Event>>, PassView<M::State, M::Event>> for Look<M> {
    ghost use Rattle.con_book.specs.Plays.{Looks};
    ghost use Rattle.con_book.specs.Lock.{moving};

    ghost then = { Looks M.state (moving M.next M.is_ready M.blank) };
}

/// Gives the slot back, and lets the next ticket be served.
pub struct Serve;

impl<M, S, E> Play<Option<Kept<M, E>>, PassView<S, E>> for Serve {
    ghost use Rattle.con_book.specs.Plays.{Serves};

    ghost then = { Serves };
}

/// Changes nothing, and tells what the rule says of the pass.
pub struct Mind;

impl<M, S, E> Play<Option<Kept<M, E>>, PassView<S, E>> for Mind {
    ghost use Rattle.con_book.specs.Plays.{Minds};

    ghost then = { Minds };
}

/// Who gets a pass. The call that makes it picks the number.
pub trait Named {
    ghost actor: { ℕ };
}

impl Named for Brand {
    ghost actor = { 0 };
}

/// Cuts a pass for another actor off the opening one.
pub struct Cut<N> {
    marker: PhantomData<N>,
}

impl<N: Named, S, E> Split<PassView<S, E>> for Cut<N> {
    ghost use Rattle.con_book.specs.Lock.{gave, newcomer};

    ghost left = { gave N.actor };

    ghost right = { newcomer N.actor };
}

/// Takes one pass into another.
pub struct Glue<M> {
    marker: PhantomData<M>,
}

impl<M: Machine> Join<PassView<M::State, M::Event>> for Glue<M> {
    ghost use Rattle.con_book.specs.Lock.{both, spent};

    ghost both = { both };

    ghost spent = { spent M.blank };
}

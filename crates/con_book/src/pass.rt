// A pass to a book.
ghost use Rattle.std.specs.Prelude.{◌≡◌, true, length};
ghost use Rattle.con_book.specs.Lock.{tickets};
ghost use Rattle.con_book.specs.Turn.{OwnIsMine};

use crate::kept::Kept;
use crate::machine::Machine;
use crate::view::PassView;
use atomic_table::Seat;

pub(crate) type Keeper<M> = Option<Kept<M, <M as Machine>::Event>>;

pub(crate) type Place<M> = Seat<Keeper<M>, PassView<<M as Machine>::State, <M as Machine>::Event>>;

/// The right of one actor to take turns at one book. It takes no bytes beside the actor's number.
///
/// Contracts see what it knows: `view_of` of `specs/Passes`, with the entries that it has `seen`, those of its own, `mine`,
/// and, of the opening pass, the actors that were given one, `made`. At every moment the entries of its own actor in
/// `seen` are `mine`.
#[derive(Drop)]
pub struct Pass<M: Machine> {
    pub(crate) actor: u32,
    pub(crate) seat: Place<M>,
    ghost is_idle: { (seat.me.0.actor ≡ actor) × (tickets seat.me.0.stage ≡ 0) × (length seat.me.1 ≡ 0) × (seat.me.0.live ≡ true) },
    ghost mine: { ∥ OwnIsMine seat.me.0 ∥₁ },
}

impl<M: Machine> Pass<M> {
    ghost use Rattle.con_book.specs.Passes.{actor_of};

    /// Whose pass it is.
    pub fn actor(&self) -> u32
        ensures { result ≡ actor_of self.now }
    {
        self.actor
    }
}

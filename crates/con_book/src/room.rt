// Room for what a book's log becomes.
ghost use Rattle.std.specs.Prelude.{◌≡◌, ℕ, ◌≤◌, max, map, OnOk, OnErr, vec_len};

use crate::history::Logged;
use con_units::OutOfMemory;
use std::alloc::Global;
use std::marker::Model;

/// A machine's state, and how many events it took. No value of it is made.
pub struct Counted<S> {
    pub state: S,
    pub entered: u64,
}

/// What an entry of a log becomes.
pub trait OfLogged<E> {
    ghost entry_of: { ℕ → E → Self };

    /// The entry of this actor and this event.
    fn of_logged(actor: u32, event: E) -> Self
        ensures { result ≡ entry_of actor event };
}

/// Room for entries of the caller's own, one for each event of a log. A machine in a book gets it event by event, so that the
/// closed log becomes a list of such entries without memory.
///
/// Contracts see the number of entries that there is room for.
#[derive(Drop)]
pub struct EntryRoom<T> {
    list: Vec<T>,
    entries: usize,
}

impl<T> Model for EntryRoom<T> {
    ghost use Rattle.std.specs.Prelude.{◌≡◌, ℕ, ◌≤◌, [], vec_capacity};

    ghost Value = { ℕ };

    ghost view = { λ r. r.entries };

    ghost invariant = { λ r. (r.list.items ≡ []) × (r.entries ≤ vec_capacity r.list) };
}

impl<T: Drop> EntryRoom<T> {
    /// Room for no entry.
    pub fn new(alloc: Global) -> EntryRoom<T>
        ensures { result ≡ 0 }
    {
        EntryRoom {
            list: Vec::new(alloc),
            entries: 0,
        }
    }

    /// Makes room for so many entries in all. Where there is no memory, all is as before.
    pub fn reserve(&mut self, entries: usize) -> Result<(), OutOfMemory>
        ensures reserved { OnOk result (self.new ≡ max self.old entries) }
        ensures refused { OnErr result (self.new ≡ self.old) }
    {
        if entries <= self.entries {
            return Ok(());
        }
        if self.list.reserve(entries).is_err() {
            return Err(OutOfMemory);
        }
        self.entries = entries;
        Ok(())
    }

    /// The entries of a log, oldest first. It takes no memory.
    pub fn fill<E: Drop>(self, log: Vec<Logged<E>>) -> Vec<T>
    where
        T: OfLogged<E>,
        requires { vec_len log ≤ self }
        ensures { result.items ≡ map (λ x. T.entry_of x.actor x.event) log.items }
    {
        let EntryRoom {
            mut list,
            entries: _,
        } = self;
        for logged in log {
            let Logged { actor, event } = logged;
            list.push_reserved(T::of_logged(actor, event));
        }
        list
    }
}

//! A log as a list of entries.
ghost use Rattle.std.specs.Prelude.{◌≡◌, ◌≤◌, [], map, vec_len, vec_capacity};
ghost use Rattle.con_machine.specs.Numbered.{actor_of};
ghost use Rattle.con_threads.specs.Ledger.{actor_or, entry_by};

use con_book::Logged;
use con_events::{Actor, Entry, Event};

const TERMINAL: u32 = 1000;

const PAINTER: u32 = 1001;

// The actor of a number. No other number enters an event; it would be listed as the side of the terminal.
fn actor_for(number: u32) -> Actor
    ensures { result ≡ actor_or (actor_of number) }
{
    if 0 < number && number < 256 {
        Actor::Client(number as u8)
    } else if number == TERMINAL {
        Actor::Terminal
    } else if number == PAINTER {
        Actor::Painter
    } else {
        Actor::Terminal
    }
}

/// The entries of a log, oldest first, in a vector that has room for them. It takes no memory.
pub(crate) fn listed_in(room: Vec<Entry>, log: Vec<Logged<Event>>) -> Vec<Entry>
    requires none { room.items ≡ [] }
    requires room { vec_len log ≤ vec_capacity room }
    ensures { result.items ≡ map (λ x. entry_by x.actor x.event) log.items }
{
    let mut entries = room;
    for logged in log {
        let Logged { actor, event } = logged;
        let actor = actor_for(actor);
        entries.push_reserved(Entry { actor, event });
    }
    entries
}

//! A machine that keeps room for what its log becomes.

ghost use Rattle.std.specs.Prelude.{◌≡◌, ℕ, ◌+◌, ◌<◌, ◌≤◌, ◌^◌, List, true, length, map};
ghost use Rattle.con_book.specs.Passes.{book_id, pass_id, view_of};
ghost use Rattle.con_book.specs.History.{is_legal};
ghost use Rattle.tests_book.specs.Desks.{desk_next, desk_ready};
ghost use Rattle.con_book.specs.declared.history.Logged.{Logged};
ghost use Rattle.con_book.specs.declared.counter.Tick.{Tick as TickEvent};

use con_book::counter::{Counter, Tick};
use con_book::{Book, Closed, Counted, EntryRoom, Machine, OfLogged, Pass};
use con_units::OutOfMemory;

/// A line of a report: who entered an event.
#[derive(Drop)]
pub struct Line {
    pub actor: u32,
}

impl OfLogged<Tick> for Line {
    ghost entry_of = { λ actor _. record { actor = actor } };

    fn of_logged(actor: u32, _event: Tick) -> Line {
        Line { actor }
    }
}

/// A counter with room for a line for each of its events.
#[derive(Drop)]
pub struct Desk {
    pub counter: Counter,
    pub entered: u64,
    pub room: EntryRoom<Line>,
    ghost roomy: { entered ≤ room },
}

impl Machine for Desk {
    ghost use Rattle.std.specs.Prelude.{◌+◌, ◌<◌, ◌≤◌, ◌^◌};
    ghost use Rattle.tests_book.specs.Desks.{desk_next, desk_ready};

    type State = Counted<u64>;

    type Event = Tick;

    type Reply = u64;

    type Answer = u64;

    type Room = ();

    ghost state = { λ d. record { state = d.counter.count; entered = d.entered } };

    ghost blank = { record { state = 0; entered = 0 } };

    ghost next = { desk_next };

    ghost answer = { λ n. n };

    ghost answer_to = { λ s _ _. s.state };

    ghost is_ready = { desk_ready };

    ghost fits = { λ _ d _ _. (d.entered + 1 ≤ d.room) × (d.entered + 1 < 2 ^ 64) };

    ghost tells = { λ _ _ _ _. Unit {0} };

    fn ready(&self, actor: u32, event: &Tick) -> bool {
        self.counter.ready(actor, event)
    }

    fn prepare(&mut self, actor: u32, event: &Tick) -> Result<(), OutOfMemory> {
        let Some(entered) = self.entered.checked_add(1) else {
            return Err(OutOfMemory);
        };
        self.room.reserve(entered as usize)?;
        self.counter.prepare(actor, event)
    }

    fn apply(&mut self, actor: u32, event: &Tick, _room: ()) -> u64 {
        self.entered += 1;
        self.counter.apply(actor, event, ())
    }
}

/// Closes a book that began with no event, and gives a line for each entry of its log. It takes no memory.
pub fn lines(book: Book<Desk>, opening: Pass<Desk>) -> Vec<Line>
    requires book { pass_id opening ≡ book_id book }
    requires opening { (view_of opening).opens ≡ true }
    requires whole { length (view_of opening).kept ≡ length (view_of opening).made }
    requires begins { (view_of opening).start.entered ≡ 0 }
    ensures { (log : List (Logged TickEvent)) × (is_legal desk_next desk_ready (view_of opening).start log ≡ true)
        × (result.items ≡ map (λ x. record { actor = x.actor }) log) }
{
    let Closed { machine, log } = book.close(opening);
    let Desk {
        counter: _,
        entered: _,
        room,
    } = machine;
    room.fill(log)
}

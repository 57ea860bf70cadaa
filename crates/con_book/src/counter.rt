// A machine that counts its events.
ghost use Rattle.std.specs.Prelude.{◌≡◌, ℕ, ◌+◌, ◌%◌, ◌^◌, ◌==◌, true, if◌then◌else◌};

use crate::machine::Machine;
use con_units::OutOfMemory;

/// Counts the events that were entered, modulo 2^64.
#[derive(Drop)]
pub struct Counter {
    pub count: u64,
}

/// An event of a [`Counter`]. Its reply is the count before it.
#[derive(Clone, Copy)]
pub enum Tick {
    /// It is always ready.
    Any,
    /// It is ready at an even count alone.
    AtEven,
}

impl Machine for Counter {
    ghost use Rattle.con_book.specs.Counting.{ticked, may_tick};

    type State = u64;

    type Event = Tick;

    type Reply = u64;

    type Answer = u64;

    type Room = ();

    ghost state = { λ c. c.count };

    ghost blank = { 0 };

    ghost next = { λ n actor event. ticked n };

    ghost answer = { λ n. n };

    ghost answer_to = { λ n actor event. n };

    ghost is_ready = { λ n actor event. may_tick n event };

    ghost fits = { λ room c actor event. Unit {0} };

    ghost tells = { λ reply n actor event. Unit {0} };

    fn ready(&self, _actor: u32, event: &Tick) -> bool {
        match *event {
            Tick::Any => true,
            Tick::AtEven => self.count % 2 == 0,
        }
    }

    fn prepare(&mut self, _actor: u32, _event: &Tick) -> Result<(), OutOfMemory> {
        Ok(())
    }

    fn apply(&mut self, _actor: u32, _event: &Tick, _room: ()) -> u64 {
        let before = self.count;
        self.count = before.wrapping_add(1);
        before
    }
}

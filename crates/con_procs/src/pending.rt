// Events that wait for one process.
ghost use Rattle.std.specs.Prelude.{◌≡◌, ℕ, ◌+◌, ◌<◌, ◌≤◌, List, [], length, IfOk, Some, None, slice_get, drop};
ghost use Rattle.con_procs.specs.Pending.{pended};

use con_units::OutOfMemory;
use std::alloc::Global;
use std::collections::VecDeque;
use std::marker::Model;

/// At most 64 events that wait, oldest first. Putting one in takes no memory.
pub struct Pending {
    events: VecDeque<u32>,
}

impl Model for Pending {
    ghost use Rattle.std.specs.Prelude.{ℕ, List, ◌≤◌};
    ghost use Rattle.std.specs.VecDeque.{deque_len, deque_capacity};

    ghost Value = { List ℕ };

    ghost view = { λ a. a.events.items };

    ghost invariant = { λ a. (deque_len a.events ≤ 64) × (64 ≤ deque_capacity a.events) };
}

// By hand, so that what drops one has this call in its proof, and not all that lies in one.
impl Drop for Pending {
    fn drop(self) {
        let Pending { events: _ } = self;
    }
}

impl Pending {
    /// No event, and room for 64.
    pub fn new(alloc: Global) -> Result<Pending, OutOfMemory>
        ensures { IfOk result (λ p. p ≡ []) }
    {
        let mut events = VecDeque::new(alloc);
        if events.reserve(64).is_err() {
            return Err(OutOfMemory);
        }
        Ok(Pending { events })
    }

    /// Puts an event last. One that finds 64 is dropped, but for a close event, which replaces the newest.
    pub fn put(&mut self, event: u32)
        ensures { self.new ≡ pended self.old event }
    {
        if self.events.len() < 64 {
            self.events.push_back_reserved(event);
        } else if event == 2 {
            self.events.truncate(63);
            self.events.push_back_reserved(event);
        }
    }

    /// The oldest event.
    pub fn first(&self) -> Option<u32>
        ensures { result ≡ slice_get self.now 0 }
    {
        self.events.front().copied()
    }

    /// Removes the oldest event.
    pub fn take(&mut self) -> Option<u32>
        ensures first { result ≡ slice_get self.old 0 }
        ensures rest { self.new ≡ drop 1 self.old }
    {
        self.events.pop_front()
    }
}

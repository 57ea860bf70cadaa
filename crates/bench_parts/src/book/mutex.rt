// The same machine under a mutex of std.
use con_book::counter::{Counter, Tick};
use con_book::{Logged, Machine};
use std::alloc::Global;
use std::sync::{Mutex, Wait};

/// A machine, and all that was entered.
#[derive(Drop)]
pub struct Direct {
    machine: Counter,
    log: Vec<Logged<Tick>>,
}

/// A machine with no entry yet.
pub fn plain(alloc: Global) -> Mutex<Direct> {
    Mutex::new(Direct {
        machine: Counter { count: 0 },
        log: Vec::new(alloc),
    })
}

impl Direct {
    // Enters one event.
    fn enter(&mut self, actor: u32) -> Option<u64> {
        self.log.reserve(1).ok()?;
        self.machine.prepare(actor, &Tick::Any).ok()?;
        let reply = self.machine.apply(actor, &Tick::Any, ());
        self.log.push_reserved(Logged {
            actor,
            event: Tick::Any,
        });
        Some(reply)
    }
}

/// Takes so many turns, or fewer where there is no memory.
pub fn work<R: Wait>(rt: &R, shared: &Mutex<Direct>, actor: u32, turns: u32) {
    for _ in 0..turns {
        if shared.lock(rt).enter(actor).is_none() {
            return;
        }
    }
}

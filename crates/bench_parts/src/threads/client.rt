// A client's thread, at a console under a mutex.
use con_console::Console;
use con_copies::copied_call;
use con_events::{Actor, Call, Event, Step};
use con_units::OutOfMemory;
use std::sync::{Mutex, Wait};

/// A console that is lent, and how many events were entered.
#[derive(Drop)]
pub struct Desk<'a> {
    pub console: &'a mut Console,
    pub events: u64,
}

impl Desk<'_> {
    // Enters an event, where it is ready.
    fn enter(&mut self, actor: Actor, event: &Event) -> Result<(), OutOfMemory> {
        if self.console.ready(actor, event) {
            let room = self.console.prepare(actor, event)?;
            drop(self.console.apply(actor, event, room));
            self.events = self.events.saturating_add(1);
        }
        Ok(())
    }
}

/// A client's number, and its script.
#[derive(Drop)]
pub struct Client<'a> {
    pub number: u8,
    pub steps: &'a [Step],
}

impl Client<'_> {
    // Enters an event of its own.
    fn enter<R: Wait>(
        &self,
        rt: &R,
        desk: &Mutex<Desk<'_>>,
        event: Event,
    ) -> Result<(), OutOfMemory> {
        let entered = desk.lock(rt).enter(Actor::Client(self.number), &event);
        drop(event);
        entered
    }

    fn make<R: Wait>(
        &self,
        rt: &R,
        desk: &Mutex<Desk<'_>>,
        call: &Call,
    ) -> Result<(), OutOfMemory> {
        let copy = copied_call(call)?;
        self.enter(rt, desk, Event::Call(copy))
    }

    // Makes its calls, and exits.
    fn follow<R: Wait>(&self, rt: &R, desk: &Mutex<Desk<'_>>) -> Result<(), OutOfMemory> {
        for step in self.steps {
            if let Step::Call(call) = step {
                self.make(rt, desk, call)?;
            }
        }
        self.enter(rt, desk, Event::Exit(0))
    }

    /// Makes its calls, and exits; or fewer of them, where there is no memory.
    pub fn work<R: Wait>(&self, rt: &R, desk: &Mutex<Desk<'_>>) {
        let _ = self.follow(rt, desk);
    }
}

//! When an event may be entered.
ghost use Rattle.std.specs.Prelude.{◌≡◌};
ghost use Rattle.con_machine.specs.Step.{is_clients, is_actors, client_of, is_outside, is_due, is_ready};
ghost use Rattle.con_machine.specs.Words.Step.{is_painters};

use crate::console::Console;
use con_events::{Actor, Event};
use con_machine::{Parts, is_size};

// Whether an event is a client's.
fn is_clients(event: &Event) -> bool
    ensures { result ≡ is_clients event.now }
{
    match event {
        Event::Call(_) => true,
        Event::Begin(_) => true,
        Event::Collect => true,
        Event::TakeCtrl => true,
        Event::Exit(_) => true,
        Event::Feed(_) => false,
        Event::Quiet => false,
        Event::Resize(_) => false,
        Event::Ask => false,
        Event::Hangup => false,
        Event::Drained => false,
        Event::Paint => false,
    }
}

fn is_painters(event: &Event) -> bool
    ensures { result ≡ is_painters event.now }
{
    match event {
        Event::Paint => true,
        Event::Call(_) => false,
        Event::Begin(_) => false,
        Event::Collect => false,
        Event::TakeCtrl => false,
        Event::Exit(_) => false,
        Event::Feed(_) => false,
        Event::Quiet => false,
        Event::Resize(_) => false,
        Event::Ask => false,
        Event::Hangup => false,
        Event::Drained => false,
    }
}

fn is_actors(actor: Actor, event: &Event) -> bool
    ensures { result ≡ is_actors actor event.now }
{
    match actor {
        Actor::Client(_) => is_clients(event),
        Actor::Terminal => !is_clients(event) && !is_painters(event),
        Actor::Painter => is_painters(event),
    }
}

// A client's number, and 0 for another actor.
fn client_of(actor: Actor) -> u8
    ensures { result ≡ client_of actor }
{
    match actor {
        Actor::Client(p) => p,
        Actor::Terminal => 0,
        Actor::Painter => 0,
    }
}

// Whether an event is that of a client that is not attached.
fn is_outside(parts: &Parts, actor: Actor, event: &Event) -> bool
    ensures { result ≡ is_outside parts.now.state actor event.now }
{
    is_clients(event) && !parts.attached(client_of(actor))
}

// Whether an event of a client that is attached, or of another actor, may be entered.
#[tactic(auto, unfolding(con_machine::specs::Step::is_due))]
fn is_due(parts: &Parts, p: u8, event: &Event) -> bool
    ensures { result ≡ is_due parts.now.state p event.now }
{
    match event {
        Event::Call(_) => true,
        Event::Begin(_) => true,
        Event::Collect => parts.done(p),
        Event::TakeCtrl => parts.pending(p),
        Event::Exit(_) => true,
        Event::Feed(_) => !parts.asked(),
        Event::Quiet => !parts.asked(),
        Event::Resize(size) => is_size(*size) && !parts.asked(),
        Event::Ask => !parts.asked(),
        Event::Hangup => true,
        Event::Drained => !parts.asked(),
        Event::Paint => parts.is_paint_due(),
    }
}

impl Console {
    /// Whether this event of this actor may be entered now. It is false for an event that is none of the actor's, and true
    /// for one of a client that is not attached. Else a Collect needs that the client's read is done, a TakeCtrl that an
    /// event is pending, and a Paint that it is due; a Resize needs a size of 1 to 512 by 1 to 256; and an event of the
    /// terminal side other than Hangup needs that no Ask stands without a Paint after it.
    #[tactic(auto, unfolding(con_machine::specs::Step::is_ready))]
    pub fn ready(&self, actor: Actor, event: &Event) -> bool
        ensures { result ≡ is_ready self.now.state actor event.now }
    {
        is_actors(actor, event)
            && (is_outside(&self.parts, actor, event)
                || is_due(&self.parts, client_of(actor), event))
    }
}

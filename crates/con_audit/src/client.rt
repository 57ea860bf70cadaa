//! A client of a run that is audited: how far it is, and what it may enter next.
ghost use Rattle.std.specs.Prelude.{◌≡◌, ◌↔◌, ◌==◌, true, drop, get_or, MatchResult, if◌then◌else◌};
ghost use Rattle.con_events.specs.declared.call.Call.TheVariants as calls;
ghost use Rattle.con_machine.specs.Client.{starting, event_of, next_event, due, is_fail, MayGoOn, MayBy, chained, took, moved_on};
ghost use Rattle.con_machine.specs.Client as client;
ghost use Rattle.con_audit.specs.Judging.{is_gone};
ghost use Rattle.con_audit.specs.Track.{stance_of, turn};
ghost use Rattle.con_events.specs.declared.event.Event.TheVariants as events;

use crate::chain::{Link, deliver, without};
use con_copies::{same_call, same_wanted};
use con_events::{Call, Event, Reply, Step};
use con_units::OutOfMemory;
use std::alloc::Global;
use std::marker::Model;

/// What a client's last entry calls for.
#[derive(Clone, Copy, PartialEq, Eq)]
pub enum Stance {
    /// Nothing.
    GoesOn,
    /// The exit by a control event, or not.
    MayLeave,
    /// The exit by a control event.
    MustLeave,
    /// The client has left.
    Gone,
}

/// A client. Contracts see con_machine's.
#[derive(Drop)]
pub struct Track<'a> {
    left: &'a [Step],
    kinds: &'a [u8],
    chain: Vec<Link>,
    doubtful: bool,
    reading: bool,
    pending: bool,
    stance: Stance,
}

impl<'a> Model for Track<'a> {
    ghost use Rattle.con_machine.specs.Client.{Client};
    ghost use Rattle.con_audit.specs.Track.{client_of};

    ghost Value = { Client };

    ghost view = { client_of };
}

// The status of a process that a control event ended.
const CTRL_EXIT: u32 = 0xC000013A;

impl<'a> Track<'a> {
    /// Before its first entry, with the steps of its script and the kinds of its handlers.
    pub fn new(alloc: Global, steps: &'a [Step], kinds: &'a [u8]) -> Track<'a>
        ensures { result ≡ starting steps.now kinds.now }
    {
        Track {
            left: steps,
            kinds,
            chain: Vec::new(alloc),
            doubtful: false,
            reading: false,
            pending: false,
            stance: Stance::GoesOn,
        }
    }

    /// Whether it may enter the event.
    pub fn may(&self, event: &Event) -> bool
        ensures { (result ≡ true) ↔ MayBy self.now.stance self.now event.now }
    {
        match self.stance {
            Stance::GoesOn => self.may_go_on(event),
            Stance::MayLeave => is_exit(event, CTRL_EXIT) || self.may_go_on(event),
            Stance::MustLeave => is_exit(event, CTRL_EXIT),
            Stance::Gone => false,
        }
    }

    /// Whether it has left.
    pub fn has_left(&self) -> bool
        ensures { result ≡ is_gone self.now.stance }
    {
        match self.stance {
            Stance::Gone => true,
            _ => false,
        }
    }

    // Whether it may, where no exit is called for.
    fn may_go_on(&self, event: &Event) -> bool
        ensures { (result ≡ true) ↔ MayGoOn self.now.pending self.now event.now }
    {
        if self.pending {
            is_take(event)
        } else {
            is_take(event) || self.is_due(event)
        }
    }

    // Whether the event is due.
    fn is_due(&self, event: &Event) -> bool
        ensures { (result ≡ true) ↔ (event.now ≡ due self.now) }
    {
        if self.reading {
            is_collect(event)
        } else {
            is_next(self.left, event)
        }
    }

    /// It entered an event, which was answered so, and behind which a control event waits for it or none. Unchanged where there is
    /// no memory.
    pub fn enter(&mut self, event: &Event, reply: &Reply, pending: bool) -> Result<(), OutOfMemory>
        ensures { MatchResult result (λ _. self.new ≡ moved_on self.old (turn event.now reply.now pending)) (λ _. self.new ≡ self.old) }
    {
        match event {
            Event::Call(call) => {
                if !is_fail(reply) {
                    self.call(call)?;
                }
                self.step();
            }
            Event::Begin(_) => {
                self.step();
                self.reading = !is_fail(reply);
            }
            Event::Collect => {
                self.reading = false;
                self.stance = Stance::GoesOn;
            }
            Event::TakeCtrl => self.take(reply),
            Event::Exit(_) => self.stance = Stance::Gone,
            _ => {}
        }
        self.pending = pending;
        Ok(())
    }

    // The next step was entered.
    fn step(&mut self)
        ensures { self.new ≡ record self.old { left = drop 1 self.old.left; stance = client.GoesOn } }
    {
        if let Some(_) = self.left.first() {
            self.left = &self.left[1..];
        }
        self.stance = Stance::GoesOn;
    }

    // A call was taken that was not refused.
    fn call(&mut self, call: &Call) -> Result<(), OutOfMemory>
        ensures { MatchResult result (λ _. self.new ≡ chained self.old call.now) (λ _. self.new ≡ self.old) }
    {
        match call {
            Call::HandlerAdd(place) => self.add(*place),
            Call::HandlerRemove(place) => {
                without(&mut self.chain, *place);
                Ok(())
            }
            _ => Ok(()),
        }
    }

    // The handler at a place of the rack was added.
    fn add(&mut self, place: u32) -> Result<(), OutOfMemory>
        ensures { MatchResult result (λ _. self.new ≡ chained self.old (calls.HandlerAdd place)) (λ _. self.new ≡ self.old) }
    {
        let kind = kind_at(self.kinds, place);
        let link = Link {
            place,
            kind,
            asked: 0,
        };
        if self.chain.push(link).is_err() {
            return Err(OutOfMemory);
        }
        if kind == 0 {
            self.doubtful = true;
        }
        Ok(())
    }

    // A control event was taken.
    fn take(&mut self, reply: &Reply)
        ensures { self.new ≡ took self.old reply.now }
    {
        if let Reply::Ctrl(event) = reply {
            let handled = deliver(self.chain.as_mut_slice(), *event);
            self.stance = called_for(*event, self.doubtful, handled);
        }
    }
}

// What an event calls for: close ends every client.
fn called_for(event: u32, doubtful: bool, handled: bool) -> Stance
    ensures { stance_of result ≡ (if event == 2 then client.MustLeave else if doubtful then client.MayLeave else if handled
        then client.GoesOn else client.MustLeave) }
{
    if event == 2 {
        Stance::MustLeave
    } else if doubtful {
        Stance::MayLeave
    } else if handled {
        Stance::GoesOn
    } else {
        Stance::MustLeave
    }
}

// The kind of the handler at a place of the rack.
fn kind_at(kinds: &[u8], place: u32) -> u8
    ensures { result ≡ get_or kinds.now place 0 }
{
    match kinds.get(place as usize) {
        Some(kind) => *kind,
        None => 0,
    }
}

// Whether a reply is a refusal.
fn is_fail(reply: &Reply) -> bool
    ensures { result ≡ is_fail reply.now }
{
    match reply {
        Reply::Fail(_) => true,
        _ => false,
    }
}

fn is_take(event: &Event) -> bool
    ensures { (result ≡ true) ↔ (event.now ≡ events.TakeCtrl) }
{
    match event {
        Event::TakeCtrl => true,
        _ => false,
    }
}

fn is_collect(event: &Event) -> bool
    ensures { (result ≡ true) ↔ (event.now ≡ events.Collect) }
{
    match event {
        Event::Collect => true,
        _ => false,
    }
}

fn is_exit(event: &Event, status: u32) -> bool
    ensures { (result ≡ true) ↔ (event.now ≡ events.Exit status) }
{
    match event {
        Event::Exit(other) => *other == status,
        _ => false,
    }
}

// Whether an event is that of the next step, or the exit behind the last one.
fn is_next(left: &[Step], event: &Event) -> bool
    ensures { (result ≡ true) ↔ (event.now ≡ next_event left.now) }
{
    match left.first() {
        Some(step) => is_step(step, event),
        None => is_exit(event, 0),
    }
}

// Whether an event is a step's.
fn is_step(step: &Step, event: &Event) -> bool
    ensures { (result ≡ true) ↔ (event.now ≡ event_of step.now) }
{
    match (step, event) {
        (Step::Call(call), Event::Call(other)) => same_call(other, call),
        (Step::Begin(wanted), Event::Begin(other)) => same_wanted(other, wanted),
        (Step::Exit(status), Event::Exit(other)) => *other == *status,
        _ => false,
    }
}

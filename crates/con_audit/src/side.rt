//! The terminal's side of a run that is audited: the frames of its link, and how far its entries are.
ghost use Rattle.std.specs.Prelude.{◌≡◌, ◌↔◌, true, false};
ghost use Rattle.con_machine.specs.Follows.{sent_by, sent_one, asks_by, MaySend, IsNext};
ghost use Rattle.con_machine.specs.Turns.{is_last_sent};

use con_events::Event;
use con_units::{Bytes, Frame};
use std::marker::Model;

/// The terminal's side. Contracts see what it has still to send, whether it has ended, and whether an Ask stands without a Paint
/// behind it.
#[derive(Drop)]
pub struct Side<'a> {
    coming: &'a [Frame],
    ended: bool,
    asked: bool,
}

impl<'a> Model for Side<'a> {
    ghost use Rattle.con_audit.specs.Side.{Side};

    ghost Value = { Side };

    ghost view = { λ s. record { sender = record { coming = s.coming.now; ended = s.ended }; asked = s.asked } };
}

impl<'a> Side<'a> {
    /// Before the first entry.
    pub fn new(frames: &'a [Frame]) -> Side<'a>
        ensures { result ≡ record { sender = record { coming = frames.now; ended = false }; asked = false } }
    {
        Side {
            coming: frames,
            ended: false,
            asked: false,
        }
    }

    /// Whether the terminal's side may enter this event.
    pub fn may(&self, event: &Event) -> bool
        ensures { (result ≡ true) ↔ (MaySend false self.now.sender event.now × (self.now.asked ≡ false)) }
    {
        !self.ended && !self.asked && self.is_next(event)
    }

    // Whether it is the next frame's event.
    fn is_next(&self, event: &Event) -> bool
        ensures { (result ≡ true) ↔ IsNext self.now.sender.coming event.now }
    {
        match self.coming.first() {
            Some(frame) => is_sent_by(frame, event),
            None => false,
        }
    }

    /// An event of the terminal's side was entered.
    pub fn send(&mut self, event: &Event)
        ensures { self.new ≡ record { sender = sent_one self.old.sender event.now; asked = asks_by self.old.asked event.now } }
    {
        if let Some(_) = self.coming.first() {
            self.coming = &self.coming[1..];
        }
        self.ended = is_last(event);
        self.note(event);
    }

    /// An event of another actor was entered.
    pub fn note(&mut self, event: &Event)
        ensures { self.new ≡ record self.old { asked = asks_by self.old.asked event.now } }
    {
        match event {
            Event::Ask => self.asked = true,
            Event::Paint => self.asked = false,
            _ => {}
        }
    }

    /// Whether the last event of it ended it.
    pub fn has_ended(&self) -> bool
        ensures { result ≡ self.now.sender.ended }
    {
        self.ended
    }
}

// Whether the terminal's side sends nothing behind it.
fn is_last(event: &Event) -> bool
    ensures { result ≡ is_last_sent event.now }
{
    match event {
        Event::Hangup => true,
        Event::Drained => true,
        _ => false,
    }
}

// Whether two lists of bytes are the same.
fn are_same(bytes: &Bytes, others: &Bytes) -> bool
    ensures { (result ≡ true) ↔ (bytes.now ≡ others.now) }
{
    bytes.0.as_slice() == others.0.as_slice()
}

// Whether a frame stands for the event.
fn is_sent_by(frame: &Frame, event: &Event) -> bool
    ensures { (result ≡ true) ↔ (event.now ≡ sent_by frame.now) }
{
    match (frame, event) {
        (Frame::Bytes(bytes), Event::Feed(others)) => are_same(bytes, others),
        (Frame::Quiet, Event::Quiet) => true,
        (Frame::Resize(size), Event::Resize(other)) => size.w == other.w && size.h == other.h,
        (Frame::Ask, Event::Ask) => true,
        (Frame::Hangup, Event::Hangup) => true,
        (Frame::End, Event::Drained) => true,
        _ => false,
    }
}

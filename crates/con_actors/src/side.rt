//! The terminal's side, and what it makes of a frame.
ghost use Rattle.std.specs.Prelude.{◌≡◌};
ghost use Rattle.con_link.specs.Frames.{ends_link};
ghost use Rattle.con_machine.specs.Follows.{sent_by};
ghost use Rattle.con_actors.specs.Words.Sender.{end_for};

use con_events::{End, Event};
use con_link::LinkFault;
use con_units::Frame;

/// The terminal's side: whether it has ended, and how the session ends where a fault of the link ended it.
#[derive(Clone, Copy, PartialEq, Eq)]
pub struct Side {
    pub ended: bool,
    pub end: End,
}

/// Whether no frame comes behind this one.
pub fn ends_the_link(frame: &Frame) -> bool
    ensures { result ≡ ends_link frame.now }
{
    matches!(frame, Frame::End | Frame::Hangup)
}

/// What the terminal's side enters for a frame.
pub fn event_for(frame: Frame) -> Event
    ensures { result ≡ sent_by frame }
{
    match frame {
        Frame::Bytes(bytes) => Event::Feed(bytes),
        Frame::Quiet => Event::Quiet,
        Frame::Resize(size) => Event::Resize(size),
        Frame::Ask => Event::Ask,
        Frame::Hangup => Event::Hangup,
        Frame::End => Event::Drained,
    }
}

/// How a session ends where no frame was read.
pub fn end_by_fault(fault: LinkFault) -> End
    ensures { result ≡ end_for fault }
{
    match fault {
        LinkFault::Failed => End::Link,
        LinkFault::TooLong => End::TooLong,
        LinkFault::Bad { place, kind } => End::Bad { place, kind },
        LinkFault::OutOfMemory => End::Memory,
    }
}

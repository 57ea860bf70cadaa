//! Frames of a link by which a second terminal attaches and detaches, too.

ghost use Rattle.std.specs.Prelude.{◌≡◌, ℕ, ◌+◌, ◌≤◌, List, [], ◌∷◌, length, Option, Ok, Err};
ghost use Rattle.con_outside.specs.Outside.{Rose, then_left};
ghost use Rattle.con_link.specs.LinkReading.{mirrored, AnswersBy};
ghost use Rattle.con_link.specs.Walked.{MirrorTakes};
ghost use Rattle.con_link.specs.Attached.{plain_read, attach_read};

use crate::fault::LinkFault;
use crate::fill::{Filled, MOST, fault_of, fill};
use crate::reader::{LinkReader, plain_frame, resize_frame};
use con_outside::Source;
use con_units::{Frame, Size};
use std::alloc::Global;

/// A frame of a link that may have a second terminal.
#[derive(Drop)]
pub enum MirrorFrame {
    /// A frame as every link has it.
    Plain(Frame),
    /// `A`: a second terminal attaches, of this size, a width of 1 to 512 and a height of 1 to 256. A frame of output is asked for.
    Attach(Size),
    /// `D`: the second terminal detaches. A frame of output is asked for.
    Detach,
}

// A frame as every link has it.
fn as_ever(read: Result<Frame, LinkFault>) -> Result<MirrorFrame, LinkFault>
    ensures { result ≡ plain_read read }
{
    match read {
        Ok(frame) => Ok(MirrorFrame::Plain(frame)),
        Err(fault) => Err(fault),
    }
}

// What was read as a new size attaches. No other frame is read behind `A`.
fn as_attach(read: Result<Frame, LinkFault>) -> Result<MirrorFrame, LinkFault>
    ensures { result ≡ attach_read read }
{
    match read {
        Ok(Frame::Resize(size)) => Ok(MirrorFrame::Attach(size)),
        Ok(frame) => Ok(MirrorFrame::Plain(frame)),
        Err(fault) => Err(fault),
    }
}

// The rest of a frame, whose first byte was taken.
fn mirror_frame<I: Source>(
    alloc: Global,
    tag: u8,
    link: &mut I,
    place: u64,
    taken: &mut u64,
) -> Result<MirrorFrame, LinkFault>
    requires few { taken.old ≤ MOST }
    requires at { taken.old ≡ place + 1 }
    ensures took { (text : List ℕ) × (I.left link.old ≡ then_left text (I.left link.new))
        × (taken.new ≡ taken.old + length text) × MirrorTakes result place (tag ∷ text) (I.left link.new) }
    ensures failed { result ≡ Err LinkFault.Failed → Rose (I.faults link.old) (I.faults link.new) }
    ensures never_falls { I.faults link.old ≤ I.faults link.new }
{
    match tag {
        0x41 => as_attach(resize_frame(link, place, taken)),
        0x44 => Ok(MirrorFrame::Detach),
        tag => as_ever(plain_frame(alloc, tag, link, place, taken)),
    }
}

impl LinkReader {
    /// Reads the next frame of a link that may have a second terminal, and no byte past it.
    pub fn next_mirrored<I: Source>(&mut self, link: &mut I) -> Result<MirrorFrame, LinkFault>
        requires { self.old ≤ MOST }
        ensures took { (text : List ℕ) × (I.left link.old ≡ then_left text (I.left link.new))
            × (self.new ≡ self.old + length text) × AnswersBy mirrored result self.old text (I.left link.new) }
        ensures failed { result ≡ Err LinkFault.Failed → Rose (I.faults link.old) (I.faults link.new) }
        ensures never_falls { I.faults link.old ≤ I.faults link.new }
    {
        let place = self.taken;
        let mut tag = [0u8; 1];
        match fill(link, &mut tag, &mut self.taken) {
            Filled::Full => {}
            Filled::Cut => return Ok(MirrorFrame::Plain(Frame::End)),
            gap => return Err(fault_of(gap, place)),
        }
        mirror_frame(self.alloc, tag[0], link, place, &mut self.taken)
    }
}

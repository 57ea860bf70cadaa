//! Reading frames from a link, one after another.

ghost use Rattle.std.specs.Prelude.{◌≡◌, ℕ, ◌+◌, ◌<◌, ◌≤◌, List, [], ◌∷◌, ◌++◌, length, take, Option, Some, None, IfSome};
ghost use Rattle.con_outside.specs.Outside.{Rose, then_left};
ghost use Rattle.con_link.specs.Frames.{two};
ghost use Rattle.con_link.specs.Plainly.{Answers};
ghost use Rattle.con_link.specs.Walked.{Takes};

use crate::fault::LinkFault;
use crate::fill::{Filled, MOST, fault_of, fill};
use con_outside::Source;
use con_units::{Bytes, Frame, FrameFault, Size};
use std::alloc::Global;
use std::marker::Model;

/// Reads frames. It is seen as the number of bytes taken from the link.
pub struct LinkReader {
    pub(crate) alloc: Global,
    pub(crate) taken: u64,
}

impl Model for LinkReader {
    ghost use Rattle.std.specs.Prelude.{ℕ};

    ghost Value = { ℕ };

    ghost view = { λ r. r.taken };
}

// By hand, so that what drops one has this call in its proof, and not all that lies in one.
impl Drop for LinkReader {
    fn drop(self) {
        let LinkReader { alloc: _, taken: _ } = self;
    }
}

impl LinkReader {
    pub fn new(alloc: Global) -> LinkReader
        ensures { result ≡ 0 }
    {
        LinkReader { alloc, taken: 0 }
    }

    /// Reads the next frame, and no byte past it.
    pub fn next<I: Source>(&mut self, link: &mut I) -> Result<Frame, LinkFault>
        requires { self.old ≤ MOST }
        ensures took { (text : List ℕ) × (I.left link.old ≡ then_left text (I.left link.new))
            × (self.new ≡ self.old + length text) × Answers result self.old text (I.left link.new) }
        ensures failed { result ≡ Err LinkFault.Failed → Rose (I.faults link.old) (I.faults link.new) }
        ensures never_falls { I.faults link.old ≤ I.faults link.new }
    {
        let place = self.taken;
        let mut tag = [0u8; 1];
        match fill(link, &mut tag, &mut self.taken) {
            Filled::Full => {}
            Filled::Cut => return Ok(Frame::End),
            gap => return Err(fault_of(gap, place)),
        }
        plain_frame(self.alloc, tag[0], link, place, &mut self.taken)
    }
}

/// The rest of a frame, whose first byte was taken.
pub(crate) fn plain_frame<I: Source>(
    alloc: Global,
    tag: u8,
    link: &mut I,
    place: u64,
    taken: &mut u64,
) -> Result<Frame, LinkFault>
    requires few { taken.old ≤ MOST }
    requires at { taken.old ≡ place + 1 }
    ensures took { (text : List ℕ) × (I.left link.old ≡ then_left text (I.left link.new))
        × (taken.new ≡ taken.old + length text) × Takes result place (tag ∷ text) (I.left link.new) }
    ensures failed { result ≡ Err LinkFault.Failed → Rose (I.faults link.old) (I.faults link.new) }
    ensures never_falls { I.faults link.old ≤ I.faults link.new }
{
    match tag {
        0x42 => bytes_frame(alloc, link, place, taken),
        0x51 => Ok(Frame::Quiet),
        0x52 => resize_frame(link, place, taken),
        0x50 => Ok(Frame::Ask),
        0x58 => Ok(Frame::Hangup),
        _ => Err(LinkFault::Bad {
            place,
            kind: FrameFault::Tag,
        }),
    }
}

fn number(high: u8, low: u8) -> u16
    ensures value { result ≡ two high low }
    ensures low { low < 256 }
{
    high as u16 * 256 + low as u16
}

/// The rest of a frame of bytes, whose first byte was taken.
fn bytes_frame<I: Source>(
    alloc: Global,
    link: &mut I,
    place: u64,
    taken: &mut u64,
) -> Result<Frame, LinkFault>
    requires few { taken.old ≤ MOST }
    requires at { taken.old ≡ place + 1 }
    ensures took { (text : List ℕ) × (I.left link.old ≡ then_left text (I.left link.new))
        × (taken.new ≡ taken.old + length text) × Takes result place (66 ∷ text) (I.left link.new) }
    ensures failed { result ≡ Err LinkFault.Failed → Rose (I.faults link.old) (I.faults link.new) }
    ensures never_falls { I.faults link.old ≤ I.faults link.new }
{
    let mut numbers = [0u8; 2];
    match fill(link, &mut numbers, taken) {
        Filled::Full => {}
        gap => return Err(fault_of(gap, place)),
    }
    let n = number(numbers[0], numbers[1]);
    if n == 0 || n > 4096 {
        return Err(LinkFault::Bad {
            place,
            kind: FrameFault::Length,
        });
    }
    let Ok(mut bytes) = Vec::from_elem(alloc, 0u8, n as usize) else {
        return Err(LinkFault::OutOfMemory);
    };
    match fill(link, bytes.as_mut_slice(), taken) {
        Filled::Full => Ok(Frame::Bytes(Bytes(bytes))),
        gap => Err(fault_of(gap, place)),
    }
}

/// The rest of a frame of a size, whose first byte was taken.
pub(crate) fn resize_frame<I: Source>(
    link: &mut I,
    place: u64,
    taken: &mut u64,
) -> Result<Frame, LinkFault>
    requires few { taken.old ≤ MOST }
    requires at { taken.old ≡ place + 1 }
    ensures took { (text : List ℕ) × (I.left link.old ≡ then_left text (I.left link.new))
        × (taken.new ≡ taken.old + length text) × Takes result place (82 ∷ text) (I.left link.new) }
    ensures failed { result ≡ Err LinkFault.Failed → Rose (I.faults link.old) (I.faults link.new) }
    ensures never_falls { I.faults link.old ≤ I.faults link.new }
{
    let mut numbers = [0u8; 4];
    match fill(link, &mut numbers, taken) {
        Filled::Full => {}
        gap => return Err(fault_of(gap, place)),
    }
    let w = number(numbers[0], numbers[1]);
    let h = number(numbers[2], numbers[3]);
    if w == 0 || w > 512 || h == 0 || h > 256 {
        return Err(LinkFault::Bad {
            place,
            kind: FrameFault::Size,
        });
    }
    Ok(Frame::Resize(Size { w, h }))
}

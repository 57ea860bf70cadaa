//! The frames of a link that stands in memory.
ghost use Rattle.std.specs.Prelude.{◌≤◌, Some, drop, length, IfOk};
ghost use Rattle.con_audit.specs.Audit.{AreFrames};

use con_link::{LinkFault, all_frames};
use con_outside::memory::front;
use con_outside::{Failed, Source};
use con_units::{Frame, OutOfMemory};
use std::alloc::Global;

/// Bytes that stand in memory, read from a place on, with no failure.
#[derive(Drop)]
pub struct Slice<'a> {
    pub bytes: &'a [u8],
    /// The place of the next byte.
    pub at: usize,
}

impl<'a> Source for Slice<'a> {
    ghost left = { λ s. Some (drop s.at s.bytes.now) };

    ghost faults = { λ _. 0 };

    fn read(&mut self, buf: &mut [u8]) -> Result<usize, Failed> {
        let n = front(self.bytes, self.at, buf);
        self.at += n;
        Ok(n)
    }
}

/// The frames that a link begins with.
pub fn frames_of(alloc: Global, link: &[u8]) -> Result<Vec<Frame>, OutOfMemory>
    requires { length link.now ≤ 16777216 }
    ensures { IfOk result (λ frames. AreFrames link.now frames.items) }
{
    let mut source = Slice { bytes: link, at: 0 };
    let mut frames = Vec::new(alloc);
    match all_frames(alloc, &mut source, &mut frames) {
        Ok(()) => Ok(frames),
        Err(LinkFault::Bad { place: _, kind: _ }) => Ok(frames),
        Err(LinkFault::OutOfMemory) => Err(OutOfMemory),
        Err(LinkFault::TooLong) => unreachable!(),
        Err(LinkFault::Failed) => unreachable!(),
    }
}

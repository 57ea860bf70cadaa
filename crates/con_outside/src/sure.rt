//! The outside in memory that never fails.

ghost use Rattle.std.specs.Prelude.{ℕ, ◌≡◌, ◌+◌, ◌<◌, ◌≤◌, List, [], ◌++◌, length, take, drop, Option, Some, None, IfOk, OnErr, IfSome};
ghost use Rattle.con_outside.specs.Outside.{Rose, then_left, then_written};

use crate::memory::front;
use crate::traits::{Failed, Fault, Sink, Source};
use con_units::Bytes;

/// Bytes in memory, read from a place on, with no failure.
#[derive(Drop)]
pub struct SureSource {
    pub bytes: Bytes,
    /// The place of the next byte.
    pub at: usize,
}

impl Source for SureSource {
    ghost left = { λ s. Some (drop s.at s.bytes) };

    ghost faults = { λ _. 0 };

    fn read(&mut self, buf: &mut [u8]) -> Result<usize, Failed> {
        let n = front(self.bytes.as_slice(), self.at, buf);
        self.at += n;
        Ok(n)
    }
}

/// Bytes kept in memory, with no failure but want of memory.
#[derive(Drop)]
pub struct SureSink {
    pub written: Bytes,
}

impl Sink for SureSink {
    ghost written = { λ s. Some s.written };

    ghost faults = { λ _. 0 };

    fn write(&mut self, bytes: &[u8]) -> Result<usize, Fault> {
        match self.written.0.extend_from_slice(bytes) {
            Ok(()) => Ok(bytes.len()),
            Err(_) => Err(Fault::OutOfMemory),
        }
    }
}

//! The outside in memory, which can be told to fail.

ghost use Rattle.std.specs.Prelude.{ℕ, ◌≡◌, ◌+◌, ◌-◌, ◌<◌, ◌≤◌, List, [], ◌++◌, length, take, drop, Option};
ghost use Rattle.std.specs.Prelude.{Some, None, IfOk, OnErr, IfSome, IsTrue, ◌↔◌, Contains, min};
ghost use Rattle.con_outside.specs.Outside.{Rose, then_left, then_written};

use crate::traits::{Failed, Fault, Sink, Source};
use con_units::Bytes;

/// Whether the call of this number is to fail, and the number of the next one.
pub fn fails(fail: &[u64], calls: &mut u64) -> bool
    ensures listed { IsTrue result ↔ Contains fail.now calls.old }
    ensures next { calls.new ≡ min (calls.old + 1) 18446744073709551615 }
{
    let now = *calls;
    *calls = now.saturating_add(1);
    fail.contains(&now)
}

/// Raises a count that stays at the greatest number.
pub fn raise(faults: &mut u64)
    ensures rose { Rose faults.old faults.new }
    ensures one { faults.new ≡ min (faults.old + 1) 18446744073709551615 }
    ensures never_falls { faults.old ≤ faults.new }
{
    *faults = faults.saturating_add(1);
}

/// Bytes in memory, read from a place on.
#[derive(Drop)]
pub struct MemorySource {
    pub bytes: Bytes,
    pub at: usize,
    pub fail: Vec<u64>,
    pub calls: u64,
    pub faults: u64,
}

impl Source for MemorySource {
    ghost left = { λ s. Some (drop s.at s.bytes) };

    ghost faults = { λ s. s.faults };

    fn read(&mut self, buf: &mut [u8]) -> Result<usize, Failed> {
        if fails(self.fail.as_slice(), &mut self.calls) {
            raise(&mut self.faults);
            return Err(Failed);
        }
        let n = front(self.bytes.as_slice(), self.at, buf);
        self.at += n;
        Ok(n)
    }
}

/// Copies what stands from a place on to the front of a buffer, as much as fits.
pub fn front(bytes: &[u8], at: usize, buf: &mut [u8]) -> usize
    ensures bound { result ≤ length buf.new }
    ensures room { result ≤ length bytes.now - at }
    ensures taken { drop at bytes.now ≡ take result buf.new ++ drop (at + result) bytes.now }
    ensures end { result ≡ 0 → 0 < length buf.new → drop at bytes.now ≡ [] }
{
    if at >= bytes.len() {
        return 0;
    }
    let rest = &bytes[at..];
    let n = rest.len().min(buf.len());
    buf[..n].copy_from_slice(&rest[..n]);
    n
}

/// Bytes kept in memory, of which a call takes at most a stated number.
#[derive(Drop)]
pub struct MemorySink {
    pub written: Bytes,
    pub most: usize,
    pub fail: Vec<u64>,
    pub calls: u64,
    pub faults: u64,
}

impl Sink for MemorySink {
    ghost written = { λ s. Some s.written };

    ghost faults = { λ s. s.faults };

    fn write(&mut self, bytes: &[u8]) -> Result<usize, Fault> {
        let n = bytes.len().min(self.most);
        if fails(self.fail.as_slice(), &mut self.calls) || (n == 0 && !bytes.is_empty()) {
            raise(&mut self.faults);
            return Err(Fault::Failed);
        }
        match self.written.0.extend_from_slice(&bytes[..n]) {
            Ok(()) => Ok(n),
            Err(_) => Err(Fault::OutOfMemory),
        }
    }
}

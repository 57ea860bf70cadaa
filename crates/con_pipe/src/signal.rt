// How one end of a pipe tells the other that it has done something.
use std::hint::spin_loop;
use std::sync::Wait;
use std::sync::atomic::AtomicU64;
use std::sync::atomic::Ordering::SeqCst;
use std::thread::yield_now;

// How often a thread that waits looks before it lets others run, and before it sleeps.
const SPINS: u32 = 64;

const YIELDS: u32 = 128;

/// Counts what both ends did, modulo 2^64. It promises nothing.
#[derive(Drop)]
pub struct Signal {
    changes: AtomicU64,
    sleepers: AtomicU64,
}

impl Signal {
    pub fn new() -> Signal {
        Signal {
            changes: AtomicU64::new(0),
            sleepers: AtomicU64::new(0),
        }
    }

    /// The number of changes so far.
    pub fn mark(&self) -> u64 {
        self.changes.load(SeqCst)
    }

    /// Counts a change, and wakes the other end.
    pub fn note(&self) {
        self.changes.fetch_add(1, SeqCst);
        if self.sleepers.load(SeqCst) != 0 {
            self.changes.wake_all();
        }
    }

    /// Lets time pass: first a moment, then the time of other threads, and in the end until there is a change after the mark.
    pub fn pause<R: Wait>(&self, rt: &R, looks: u32, mark: u64) {
        if looks < SPINS {
            spin_loop();
        } else if looks < YIELDS {
            yield_now();
        } else {
            self.sleepers.fetch_add(1, SeqCst);
            self.changes.park(rt, (mark & 0xffff_ffff) as u32);
            self.sleepers.fetch_sub(1, SeqCst);
        }
    }
}

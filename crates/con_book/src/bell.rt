// A bell that threads wait for.
use std::sync::Wait;
use std::sync::atomic::AtomicU64;
use std::sync::atomic::Ordering::SeqCst;

/// Counts its rings, modulo 2^64. It promises nothing.
///
/// Take the [`mark`](Bell::mark), then look whether there is something to do, and if there is nothing,
/// [`wait`](Bell::wait) for a ring after that mark: a ring in between is not missed.
#[derive(Drop)]
pub struct Bell {
    rings: AtomicU64,
    // The threads that sleep until it is rung.
    sleepers: AtomicU64,
}

impl Bell {
    /// A bell that was not rung yet.
    pub fn new() -> Bell {
        Bell {
            rings: AtomicU64::new(0),
            sleepers: AtomicU64::new(0),
        }
    }

    /// The number of its rings so far.
    pub fn mark(&self) -> u64 {
        self.rings.load(SeqCst)
    }

    /// Wakes all that wait for it.
    pub fn ring(&self) {
        self.rings.fetch_add(1, SeqCst);
        if self.sleepers.load(SeqCst) != 0 {
            self.rings.wake_all();
        }
    }

    /// Waits until it was rung after the mark. The thread sleeps meanwhile.
    pub fn wait<R: Wait>(&self, rt: &R, seen: u64) {
        let low = (seen & 0xffff_ffff) as u32;
        for _ in rt.forever() {
            if self.rings.load(SeqCst) != seen {
                return;
            }
            self.sleepers.fetch_add(1, SeqCst);
            self.rings.park(rt, low);
            self.sleepers.fetch_sub(1, SeqCst);
        }
        unreachable!()
    }
}

//! What the threads of a session tell each other beside its history.
use con_book::Bell;
use std::sync::Wait;
use std::sync::atomic::Ordering::SeqCst;
use std::sync::atomic::{AtomicBool, AtomicU64};

/// What the threads of a session tell each other beside its history. It promises nothing: no contract knows what another thread sets.
#[derive(Drop)]
pub struct Signals {
    /// Rung where there may be something to do for another.
    pub bell: Bell,
    /// Set where there is no memory: all return.
    pub halt: AtomicBool,
    /// Set where the terminal has failed.
    pub failed: AtomicBool,
    /// How many clients are at work, and the terminal's side.
    pub others: AtomicU64,
    /// How many threads are still to be made. None begins before all are.
    pub missing: AtomicU64,
}

impl Signals {
    /// The signals of a session of so many clients. A thread is to be made for each of them, for the terminal's side, the painter and the
    /// writer, but for the one that is there.
    pub fn of(clients: usize) -> Signals {
        let clients = clients as u64;
        Signals {
            bell: Bell::new(),
            halt: AtomicBool::new(false),
            failed: AtomicBool::new(false),
            others: AtomicU64::new(clients.wrapping_add(1)),
            missing: AtomicU64::new(clients.max(1).wrapping_add(2)),
        }
    }

    /// A thread was made. It waits, as all do, until the last one is made.
    pub fn made(&self) {
        if self.missing.fetch_sub(1, SeqCst) == 1 {
            self.bell.ring();
        }
    }

    /// There is no memory, or a thread could not be made, which is want of memory too: all return.
    pub fn stop(&self) {
        self.halt.store(true, SeqCst);
        self.bell.ring();
    }

    /// Waits until all threads were made, or somebody halts all.
    pub fn wait_for_all<R: Wait>(&self, rt: &R) {
        for _ in rt.forever() {
            let mark = self.bell.mark();
            if self.missing.load(SeqCst) == 0 {
                return;
            }
            if self.halt.load(SeqCst) {
                return;
            }
            self.bell.wait(rt, mark);
        }
        unreachable!()
    }

    /// A client or the terminal's side has returned.
    pub fn leave(&self) {
        self.others.fetch_sub(1, SeqCst);
        self.bell.ring();
    }
}

//! The writer's thread.
ghost use Rattle.std.specs.Prelude.{◌≡◌, ◌⊎◌, ◌≤◌, ℕ, true, List, ◌∷◌, ◌++◌, [], Option};
ghost use Rattle.con_outside.specs.Outside.{Rose};
ghost use Rattle.con_threads.specs.Writers.{Writes};

use crate::signals::Signals;
use con_outside::{Fault, Sink, write_whole};
use con_pipe::PipeOut;
use con_units::Bytes;
use std::sync::atomic::Ordering::SeqCst;

/// The writer. `failed`: the sink failed. `broken`: it had no memory. Behind either it takes pieces and writes none.
#[derive(Drop)]
pub struct WriterThread {
    pub take: PipeOut,
    pub failed: bool,
    pub broken: bool,
}

// The terminal has failed.
fn tell(signals: &Signals) {
    signals.failed.store(true, SeqCst);
    signals.bell.ring();
}

impl WriterThread {
    /// Writes a piece that was taken whole, unless the sink failed or there was no memory before. A failure of the sink is told, and want
    /// of memory halts all.
    pub fn write<O: Sink>(&mut self, term: &mut O, piece: &Bytes, signals: &Signals)
        ensures take { self.new.take ≡ self.old.take }
        ensures wrote { (before : Option (List ℕ)) (ps : List (List ℕ))
            → Writes before (O.written term.old) ps self.old.failed self.old.broken
            → Writes before (O.written term.new) (ps ++ piece.now ∷ []) self.new.failed self.new.broken }
        ensures failed { self.new.failed ≡ true → (self.old.failed ≡ true) ⊎ Rose (O.faults term.old) (O.faults term.new) }
        ensures never_falls { O.faults term.old ≤ O.faults term.new }
    {
        if self.failed {
            return;
        }
        if self.broken {
            return;
        }
        match write_whole(term, piece.as_slice()) {
            Ok(()) => {}
            Err(Fault::Failed) => {
                self.failed = true;
                tell(signals);
            }
            Err(Fault::OutOfMemory) => {
                self.broken = true;
                signals.stop();
            }
        }
    }
}

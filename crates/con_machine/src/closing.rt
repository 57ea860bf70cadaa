//! The console closes.
ghost use Rattle.std.specs.Prelude.{◌≡◌, ◌≤◌, ◌||◌, length, not};
ghost use Rattle.con_procs.specs.Procs.{is_attached, ids_of};
ghost use Rattle.con_readers.specs.Reads.{has_undone};
ghost use Rattle.con_machine.specs.Closing.{hung_up, closing, all_wait};

use crate::parts::Parts;
use con_procs::Procs;
use con_readers::Readers;

const CLOSE: u32 = 2;

// Whether a process is not attached, or waits for input.
fn waits(procs: &Procs, readers: &Readers, p: u8) -> bool
    ensures { result ≡ (not (is_attached procs.now p) || has_undone readers.now.reads p) }
{
    !procs.attached(p) || readers.undone(p)
}

// Whether each attached process waits for input.
fn all_wait(procs: &Procs, readers: &Readers) -> bool
    ensures { result ≡ all_wait readers.now.reads (ids_of procs.now) }
{
    for i in 0..procs.count() {
        if !waits(procs, readers, i + 1) {
            return false;
        }
    }
    true
}

impl Parts {
    /// Each attached process has a close event pending, and each read that is not done ends. It happens once.
    pub(crate) fn hang_up(&mut self)
        ensures state { self.new.state ≡ hung_up self.old.state }
        ensures spare { self.new.spare ≡ self.old.spare }
    {
        if self.closed {
            return;
        }
        self.closed = true;
        self.procs.signal(CLOSE, 0);
        self.readers.close_all();
    }

    /// Closes the console where nothing more comes from the link and each attached process waits for input.
    #[tactic(auto, unfolding(crate::specs::Closing::closing))]
    pub fn close_if_idle(&mut self)
        ensures state { self.new.state ≡ closing self.old.state }
        ensures spare { self.new.spare ≡ self.old.spare }
    {
        if self.drained && all_wait(&self.procs, &self.readers) {
            self.hang_up();
        }
    }
}

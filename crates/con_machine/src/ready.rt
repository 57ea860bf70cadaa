//! What the console is asked before an event is entered.
ghost use Rattle.std.specs.Prelude.{◌≡◌, length};
ghost use Rattle.con_events.specs.Session.{is_size};
ghost use Rattle.con_procs.specs.Procs.{is_attached};
ghost use Rattle.con_readers.specs.Reads.{has_done};
ghost use Rattle.con_machine.specs.Turns.{is_pending};

use crate::parts::Parts;
use con_units::Size;
use con_units::limits::{MOST_COLUMNS, MOST_WINDOW_ROWS};
use std::alloc::Global;

/// Whether a window has this size: 1 to 512 by 1 to 256.
pub fn is_size(size: Size) -> bool
    ensures { result ≡ is_size size }
{
    1 <= size.w && size.w <= MOST_COLUMNS && 1 <= size.h && size.h <= MOST_WINDOW_ROWS
}

impl Parts {
    /// Whether nothing may be read or written any more: all waits end.
    pub fn closed(&self) -> bool
        ensures { result ≡ self.now.state.closed }
    {
        self.closed
    }

    /// How many records stand in the input queue.
    pub fn queued(&self) -> usize
        ensures { result ≡ length self.now.state.records }
    {
        self.records.count()
    }

    /// Whether a process started and did not exit.
    pub fn attached(&self, process: u8) -> bool
        ensures { result ≡ is_attached self.now.state.procs process }
    {
        self.procs.attached(process)
    }

    /// Whether a control event waits for a process.
    pub fn pending(&self, process: u8) -> bool
        ensures { result ≡ is_pending self.now.state process }
    {
        self.procs.first_pending(process).is_some()
    }

    /// Whether the read of a process is done, and may be collected.
    pub fn done(&self, process: u8) -> bool
        ensures { result ≡ has_done self.now.state.reads process }
    {
        self.readers.done(process)
    }

    /// Whether an Ask stands, behind which no Paint came.
    pub fn asked(&self) -> bool
        ensures { result ≡ self.now.state.asked }
    {
        self.asked
    }

    /// Where memory is taken from.
    pub fn allocator(&self) -> Global {
        self.title.allocator()
    }
}

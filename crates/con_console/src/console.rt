//! The console, and what it is asked.
ghost use Rattle.std.specs.Prelude.{◌≡◌, IfOk, length};
ghost use Rattle.con_procs.specs.Procs.{is_attached};
ghost use Rattle.con_units.specs.Words.Limits.{IsWindow};
ghost use Rattle.con_units.specs.Words.View.{IsWhole};
ghost use Rattle.con_machine.specs.Painting.{view_now};
ghost use Rattle.con_machine.specs.State.{opening};
ghost use Rattle.con_machine.specs.Turns.{is_pending};

use con_events::Session;
use con_machine::Parts;
use con_units::OutOfMemory;
use std::alloc::Global;
use std::marker::Model;

/// The console: all that its clients, its terminal and its painter share.
pub struct Console {
    pub(crate) parts: Parts,
}

impl Model for Console {
    ghost use Rattle.con_machine.specs.Held.{Held};

    ghost Value = { Held };

    ghost view = { λ c. c.parts };
}

// By hand, so that what drops a console has this call in its proof.
impl Drop for Console {
    fn drop(self) {
        let Console { parts: _ } = self;
    }
}

impl Console {
    /// The console of a session whose clients have just started, with racks of so many handlers; a missing rack has none.
    pub fn new(alloc: Global, session: &Session, racks: &[u8]) -> Result<Console, OutOfMemory>
        ensures state { IfOk result (λ c. c.state ≡ opening session.now racks.now) }
    {
        Ok(Console {
            parts: Parts::new(alloc, session, racks)?,
        })
    }

    /// Whether nothing may be read or written any more: all waits end.
    pub fn closed(&self) -> bool
        ensures { result ≡ self.now.state.closed }
    {
        self.parts.closed()
    }

    /// How many records stand in the input queue.
    pub fn queued(&self) -> usize
        ensures { result ≡ length self.now.state.records }
    {
        self.parts.queued()
    }

    /// Whether a process started and did not exit.
    pub fn attached(&self, process: u8) -> bool
        ensures { result ≡ is_attached self.now.state.procs process }
    {
        self.parts.attached(process)
    }

    /// Whether a control event waits for a process.
    pub fn pending(&self, process: u8) -> bool
        ensures { result ≡ is_pending self.now.state process }
    {
        self.parts.pending(process)
    }

    /// The view has all of its cells, and its cursor inside where it shows. It has the size of the window, of 1 to 512
    /// columns and 1 to 256 rows.
    pub fn view_is_whole(&self)
        ensures whole { IsWhole (view_now self.now.state) }
        ensures wide { (view_now self.now.state).size.w ≡ self.now.state.buffers.w }
        ensures high { (view_now self.now.state).size.h ≡ self.now.state.buffers.h }
        ensures window { IsWindow self.now.state.buffers.w self.now.state.buffers.h }
    {
        self.parts.view_is_whole();
    }
}

// One process.
ghost use Rattle.std.specs.Prelude.{◌≡◌, ◌<◌, ◌≤◌, ◌+◌, IfOk, [], ◌∷◌, ◌++◌, vec_len, vec_capacity, if◌then◌else◌};
ghost use Rattle.con_procs.specs.Procs.{reaches, started, is_live};
ghost use Rattle.con_procs.specs.Words.Procs.{told};

use crate::pending::Pending;
use crate::rack::Rack;
use con_units::{OutOfMemory, Units};
use std::alloc::Global;

/// A process as it starts.
#[derive(Drop)]
pub struct ProcStart {
    /// The name of its program, by which histories and aliases are kept.
    pub program: Units,
    /// Its process group, which `GenerateConsoleCtrlEvent` names.
    pub group: u32,
    /// How many handlers its rack has.
    pub rack: u8,
}

/// A process.
pub struct Proc {
    /// The name of its program.
    pub program: Units,
    /// Its process group.
    pub group: u32,
    /// Whether it ignores ctrl+C, as by `SetConsoleCtrlHandler` without a handler.
    pub ignore: bool,
    /// Its status, once it has exited.
    pub ended: Option<u32>,
    /// The control events that wait for it.
    pub pending: Pending,
    /// The handlers that it may add.
    pub rack: Rack,
}

// By hand, so that what drops one has this call in its proof, and not all that lies in one.
impl Drop for Proc {
    fn drop(self) {
        let Proc {
            program: _,
            group: _,
            ignore: _,
            ended: _,
            pending: _,
            rack: _,
        } = self;
    }
}

impl Proc {
    /// A process that has just started.
    pub fn new(alloc: Global, start: &ProcStart) -> Result<Proc, OutOfMemory>
        ensures { IfOk result (λ p. p ≡ started start.now) }
    {
        let program = start.program.copied()?;
        let pending = Pending::new(alloc)?;
        let rack = Rack::new(alloc, start.rack)?;
        Ok(Proc {
            program,
            group: start.group,
            ignore: false,
            ended: None,
            pending,
            rack,
        })
    }

    /// Whether the process is attached.
    pub fn is_live(&self) -> bool
        ensures { result ≡ is_live self.now }
    {
        self.ended.is_none()
    }

    /// Puts the number last, where the process is attached.
    pub fn tell_id(&self, number: u8, out: &mut Vec<u8>)
        requires { vec_len out.old < vec_capacity out.old }
        ensures items { out.new.items ≡ (if is_live self.now then out.old.items ++ number ∷ [] else out.old.items) }
        ensures len { vec_len out.new ≤ vec_len out.old + 1 }
        ensures room { vec_capacity out.new ≡ vec_capacity out.old }
    {
        if self.is_live() {
            out.push_reserved(number);
        }
    }

    /// Whether the event, signalled to the group, reaches this process.
    pub fn is_reached(&self, event: u32, group: u32) -> bool
        ensures { result ≡ reaches event group self.now }
    {
        self.ended.is_none()
            && (if event == 0 {
                group == 0 && !self.ignore
            } else if event == 1 {
                group == 0 || self.group == group
            } else {
                true
            })
    }

    /// Makes the event pending, where it reaches this process.
    pub fn tell(&mut self, event: u32, group: u32)
        ensures { self.new ≡ told event group self.old }
    {
        if self.is_reached(event, group) {
            self.pending.put(event);
        }
    }
}

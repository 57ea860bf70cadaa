// All processes.
ghost use Rattle.std.specs.Prelude.{◌≡◌, ℕ, ◌+◌, ◌-◌, ◌<◌, ◌≤◌, List, [], length, IfOk, Some, None, true, map, take, vec_len, vec_capacity, if◌then◌else◌};
ghost use Rattle.std.specs.List.{list_any};
ghost use Rattle.con_procs.specs.Procs.{started, is_live, is_attached, group_known, ids_of, ids_from, program_of, programs_of, signalled, exited, ignoring, is_fresh, is_chained, first_pending, took_pending, place_in, add_answer, handler_added, remove_answer, handler_removed, placed};
ghost use Rattle.con_procs.specs.Words.Procs.{is_member, told, status_of};

use crate::proc::{Proc, ProcStart};
use crate::rack::Place;
use con_units::{Code, OutOfMemory, Units};
use std::alloc::Global;
use std::marker::Model;

/// The processes. The first has the number 1.
pub struct Procs {
    procs: Vec<Proc>,
    // Those of the attached processes.
    programs: Vec<Units>,
}

impl Model for Procs {
    ghost use Rattle.std.specs.Prelude.{List, ◌≡◌, ◌≤◌, vec_len};
    ghost use Rattle.con_procs.specs.declared.proc.Proc.{Proc};
    ghost use Rattle.con_procs.specs.Procs.{programs_of};

    ghost Value = { List Proc };

    ghost view = { λ a. a.procs.items };

    ghost invariant = { λ a. (vec_len a.procs ≤ 255) × (a.programs.items ≡ programs_of a.procs.items) };
}

// By hand, so that what drops one has this call in its proof, and not all that lies in one.
impl Drop for Procs {
    fn drop(self) {
        let Procs {
            procs: _,
            programs: _,
        } = self;
    }
}

fn weight(p: &Proc) -> usize
    ensures is { result ≡ (if is_live p.now then 1 else 0) }
    ensures small { result ≤ 1 }
{
    if p.is_live() { 1 } else { 0 }
}

// How many of the first processes are attached.
fn rank(procs: &[Proc], n: usize) -> usize
    requires { n ≤ length procs.now }
    ensures { result ≡ length (programs_of (take n procs.now)) }
{
    let mut at = 0;
    for i in 0..n {
        let p = &procs[i];
        at += weight(p);
    }
    at
}

impl Procs {
    /// Attaches process 1, 2, and so on, with room for 64 pending events each.
    pub fn new(alloc: Global, starts: &[ProcStart]) -> Result<Procs, OutOfMemory>
        requires { length starts.now ≤ 255 }
        ensures { IfOk result (λ ps. ps ≡ map started starts.now) }
    {
        let mut procs = match Vec::with_capacity(alloc, starts.len()) {
            Ok(procs) => procs,
            Err(_) => return Err(OutOfMemory),
        };
        let mut programs = match Vec::with_capacity(alloc, starts.len()) {
            Ok(programs) => programs,
            Err(_) => return Err(OutOfMemory),
        };
        for start in starts {
            let one = Proc::new(alloc, start)?;
            let program = start.program.copied()?;
            procs.push_reserved(one);
            programs.push_reserved(program);
        }
        Ok(Procs { procs, programs })
    }

    /// How many processes were ever attached.
    pub fn count(&self) -> u8
        ensures { result ≡ length self.now }
    {
        self.procs.len() as u8
    }

    /// Whether the process is attached: it started, and did not exit.
    pub fn attached(&self, process: u8) -> bool
        ensures { result ≡ is_attached self.now process }
    {
        if process == 0 {
            return false;
        }
        match self.procs.get(process as usize - 1) {
            Some(p) => p.ended.is_none(),
            None => false,
        }
    }

    /// Puts the attached processes' numbers into an empty vector with room for all processes, in rising order.
    pub fn ids(&self, out: &mut Vec<u8>)
        requires empty { out.old.items ≡ [] }
        requires room { length self.now ≤ vec_capacity out.old }
        ensures ids { out.new.items ≡ ids_of self.now }
        ensures room { vec_capacity out.new ≡ vec_capacity out.old }
    {
        for i in 0..self.procs.len() {
            let p = &self.procs[i];
            p.tell_id(i as u8 + 1, out);
        }
    }

    /// Whether an attached process is in the group.
    pub fn group_known(&self, group: u32) -> bool
        ensures { result ≡ group_known self.now group }
    {
        self.procs
            .iter()
            .any(|p| p.ended.is_none() && p.group == group)
    }

    /// The process's program.
    pub fn program(&self, process: u8) -> &Units
        requires { is_attached self.now process ≡ true }
        ensures { result.now ≡ program_of self.now process }
    {
        &self.procs[process as usize - 1].program
    }

    /// The programs of the attached processes, in the order of their numbers.
    pub fn programs(&self) -> &[Units]
        ensures { result.now ≡ programs_of self.now }
    {
        self.programs.as_slice()
    }

    /// Whether the process ignores ctrl+C from now on.
    pub fn set_ignore(&mut self, process: u8, on: bool)
        requires { is_attached self.old process ≡ true }
        ensures { self.new ≡ ignoring self.old process on }
    {
        let p = &mut self.procs[process as usize - 1];
        p.ignore = on;
    }

    /// Makes an event pending. Ctrl+C (0) of group 0 reaches each attached process that does not ignore it, and of another
    /// group none; ctrl+break (1) those of the group, or all for 0; close (2) all, whatever the group.
    pub fn signal(&mut self, event: u32, group: u32)
        requires { event ≤ 2 }
        ensures { self.new ≡ signalled self.old event group }
    {
        for i in 0..self.procs.len() {
            let p = &mut self.procs[i];
            p.tell(event, group);
        }
    }

    /// The process's oldest pending event.
    pub fn first_pending(&self, process: u8) -> Option<u32>
        ensures { result ≡ first_pending self.now process }
    {
        if process == 0 {
            return None;
        }
        match self.procs.get(process as usize - 1) {
            Some(p) => p.pending.first(),
            None => None,
        }
    }

    /// Removes the process's oldest pending event, and gives it.
    pub fn take_pending(&mut self, process: u8) -> Option<u32>
        ensures first { result ≡ first_pending self.old process }
        ensures rest { self.new ≡ took_pending self.old process }
    {
        if process == 0 {
            return None;
        }
        let at = process as usize - 1;
        if at >= self.procs.len() {
            return None;
        }
        let p = &mut self.procs[at];
        p.pending.take()
    }

    /// Detaches the process.
    pub fn exit(&mut self, process: u8, status: u32)
        requires { is_attached self.old process ≡ true }
        ensures { self.new ≡ exited self.old process status }
    {
        let at = rank(self.procs.as_slice(), process as usize - 1);
        self.programs.remove(at);
        let p = &mut self.procs[process as usize - 1];
        p.ended = Some(status);
    }

    /// With what the process exited. None: it is attached, or never was.
    pub fn status(&self, process: u8) -> Option<u32>
        ensures { result ≡ status_of self.now process }
    {
        if process == 0 {
            return None;
        }
        match self.procs.get(process as usize - 1) {
            Some(p) => p.ended,
            None => None,
        }
    }

    /// What a place of the process's rack is.
    pub fn place(&self, process: u8, place: u8) -> Option<Place>
        ensures { result ≡ place_in self.now process place }
    {
        if process == 0 {
            return None;
        }
        match self.procs.get(process as usize - 1) {
            Some(p) => p.rack.place(place),
            None => None,
        }
    }

    fn is_fresh(&self, process: u8, place: u8) -> bool
        ensures { result ≡ is_fresh (place_in self.now process place) }
    {
        matches!(self.place(process, place), Some(Place::Fresh))
    }

    fn is_chained(&self, process: u8, place: u8) -> bool
        ensures { result ≡ is_chained (place_in self.now process place) }
    {
        matches!(self.place(process, place), Some(Place::Chained))
    }

    fn set_place(&mut self, process: u8, place: u8, to: Place)
        requires { is_attached self.old process ≡ true }
        ensures { self.new ≡ placed self.old process place to }
    {
        let p = &mut self.procs[process as usize - 1];
        p.rack.set(place, to);
    }

    /// Puts a place of the rack into the chain. `BadArgument`: the rack has no such place, or it was added before.
    pub fn add_handler(&mut self, process: u8, place: u8) -> Result<(), Code>
        requires { is_attached self.old process ≡ true }
        ensures answer { result ≡ add_answer self.old process place }
        ensures state { self.new ≡ handler_added self.old process place }
    {
        if !self.is_fresh(process, place) {
            return Err(Code::BadArgument);
        }
        self.set_place(process, place, Place::Chained);
        Ok(())
    }

    /// Takes a place out of the chain. `BadArgument`: it is not in the chain.
    pub fn remove_handler(&mut self, process: u8, place: u8) -> Result<(), Code>
        requires { is_attached self.old process ≡ true }
        ensures answer { result ≡ remove_answer self.old process place }
        ensures state { self.new ≡ handler_removed self.old process place }
    {
        if !self.is_chained(process, place) {
            return Err(Code::BadArgument);
        }
        self.set_place(process, place, Place::Removed);
        Ok(())
    }
}

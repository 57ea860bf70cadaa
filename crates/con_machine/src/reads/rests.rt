//! What is left of lines for the next reads.
ghost use Rattle.std.specs.Prelude.{◌≡◌, ℕ, ◌-◌, ◌<◌, ◌++◌, ◌∷◌, [], max, not, OnOk, OnErr, Bool};
ghost use Rattle.std.specs.List.{position_or_len, position, list_any};
ghost use Rattle.con_machine.specs.State.{is_rest_of, rest_in, with_rest};
ghost use Rattle.con_machine.specs.Words.State.{is_rest_by, has_rest, rest_begun, without_rest, without_rests};

use crate::reads::rest::Rest;
use con_units::{OutOfMemory, Units};
use std::alloc::Global;
use std::marker::Model;

/// The rests, each of one handle. Contracts also see for how many more there is room.
#[derive(Drop)]
pub struct Rests {
    list: Vec<Rest>,
    spare: usize,
}

impl Model for Rests {
    ghost use Rattle.std.specs.Prelude.{◌+◌, ◌≤◌, vec_len, vec_capacity};
    ghost use Rattle.con_machine.specs.Kept.{Resting};

    ghost Value = { Resting };

    ghost view = { λ a. record { list = a.list.items; spare = a.spare } };

    ghost invariant = { λ a. vec_len a.list + a.spare ≤ vec_capacity a.list };
}

fn try_find(rests: &[Rest], process: u8, handle: u32) -> Option<usize>
    ensures { result ≡ position (is_rest_of process handle) rests.now }
{
    rests
        .iter()
        .position(|rest| rest.process == process && rest.handle == handle)
}

// The place of a handle's rest, or how many rests there are.
fn place_of(rests: &[Rest], process: u8, handle: u32) -> usize
    ensures { result ≡ position_or_len (is_rest_of process handle) rests.now }
{
    match try_find(rests, process, handle) {
        Some(i) => i,
        None => rests.len(),
    }
}

fn rest_of(rests: &[Rest], process: u8, handle: u32) -> &[u16]
    ensures { result.now ≡ rest_in rests.now process handle }
{
    let i = place_of(rests, process, handle);
    if i < rests.len() {
        let rest = &rests[i];
        rest.units.as_slice()
    } else {
        &[]
    }
}

fn set(rests: &mut [Rest], process: u8, handle: u32, units: Units)
    ensures { rests.new ≡ with_rest units rests.old process handle }
{
    let i = place_of(rests, process, handle);
    if i < rests.len() {
        let rest = &mut rests[i];
        rest.set(units);
    }
}

// An empty rest of a handle takes other memory.
fn give_room(rests: &mut [Rest], process: u8, handle: u32, room: Units)
    requires { room ≡ [] }
    ensures { rests.new ≡ rests.old }
{
    let i = place_of(rests, process, handle);
    if i < rests.len() {
        let rest = &mut rests[i];
        rest.give_room(room);
    }
}

// The memory of a handle's empty rest, where it has one.
fn take_room(rests: &mut [Rest], process: u8, handle: u32, alloc: Global) -> Units
    ensures empty { result ≡ [] }
    ensures same { rests.new ≡ rests.old }
{
    let i = place_of(rests, process, handle);
    if i < rests.len() {
        let rest = &mut rests[i];
        rest.take_room(alloc)
    } else {
        Units(Vec::new(alloc))
    }
}

impl Rests {
    /// No rest, and room for none.
    pub fn new(alloc: Global) -> Rests
        ensures { result ≡ record { list = []; spare = 0 } }
    {
        Rests {
            list: Vec::new(alloc),
            spare: 0,
        }
    }

    /// Makes room for one rest.
    pub fn reserve(&mut self) -> Result<(), OutOfMemory>
        ensures ok { OnOk result (self.new ≡ record self.old { spare = max self.old.spare 1 }) }
        ensures err { OnErr result (self.new ≡ self.old) }
    {
        if self.spare < 1 {
            if self.list.reserve(1).is_err() {
                return Err(OutOfMemory);
            }
            self.spare = 1;
        }
        Ok(())
    }

    /// Whether a handle has a rest here, which may be empty.
    pub fn has(&self, process: u8, handle: u32) -> bool
        ensures { result ≡ has_rest self.now.list process handle }
    {
        self.list
            .iter()
            .any(|rest| rest.process == process && rest.handle == handle)
    }

    /// What is left for a handle's next line read.
    pub fn of(&self, process: u8, handle: u32) -> &[u16]
        ensures { result.now ≡ rest_in self.now.list process handle }
    {
        rest_of(self.list.as_slice(), process, handle)
    }

    /// A handle has a rest from here on, an empty one unless there is one. An empty one lies in the memory that is given.
    pub fn begin(&mut self, process: u8, handle: u32, empty: Units)
        requires room { 0 < self.old.spare }
        requires empty { empty ≡ [] }
        ensures { self.new.list ≡ rest_begun self.old.list process handle }
    {
        if self.has(process, handle) {
            give_room(self.list.as_mut_slice(), process, handle, empty);
        } else {
            self.list.push_reserved(Rest {
                process,
                handle,
                units: empty,
            });
            self.spare -= 1;
        }
    }

    /// The memory of a handle's empty rest, which stays empty without it; none where there is no such rest.
    pub fn take_room(&mut self, process: u8, handle: u32) -> Units
        ensures empty { result ≡ [] }
        ensures same { self.new ≡ self.old }
    {
        let alloc = *self.list.allocator();
        take_room(self.list.as_mut_slice(), process, handle, alloc)
    }

    /// The rest of a handle that has one becomes another one.
    pub fn set(&mut self, process: u8, handle: u32, units: Units)
        ensures { self.new ≡ record self.old { list = with_rest units self.old.list process handle } }
    {
        set(self.list.as_mut_slice(), process, handle, units);
    }

    /// Drops the rest of a handle.
    pub fn forget(&mut self, process: u8, handle: u32)
        ensures { self.new ≡ record self.old { list = without_rest self.old.list process handle } }
    {
        self.list.retain(
            |rest|
                ensures { result ≡ not (is_rest_of process handle rest.now) }
            { !(rest.process == process && rest.handle == handle) },
        );
    }

    /// Drops the rests of all handles of a process.
    pub fn forget_all(&mut self, process: u8)
        ensures { self.new ≡ record self.old { list = without_rests self.old.list process } }
    {
        self.list.retain(
            |rest|
                ensures { result ≡ not (is_rest_by process rest.now) }
            { rest.process != process },
        );
    }
}

// The table.
ghost use Rattle.std.specs.Prelude.{◌≡◌, ℕ, ◌+◌, ◌-◌, ◌<◌, ◌≤◌, List, [], IfSome, OnSome, Some, OnOk, OnErr, IfOk, IfErr, IsTrue, Bool, if◌then◌else◌, true, false, option_map, vec_len, ◌↔◌, Err};
ghost use Rattle.con_handles.specs.Handles.{find_handle, look, new_number, entered, object_of};
ghost use Rattle.con_handles.specs.Words.Handles.{Table, count_of, opened, closed, least_of, is_used, taken, with_room};
ghost use Rattle.con_handles.specs.Places.{handle_of};
ghost use Rattle.con_handles.specs.Tables.{IsTable, tally, on};

use crate::handle::{Handle, Held, Kind, Object};
use crate::places;
use con_units::{Code, OutOfMemory};
use std::alloc::Global;
use std::marker::Model;

/// The handles of all processes. Contracts also see for how many more there is room.
#[derive(Drop)]
pub struct Handles {
    places: Vec<Option<Held>>,
    spare: usize,
}

impl Model for Handles {
    ghost use Rattle.std.specs.Prelude.{◌*◌, ◌≤◌, vec_len};
    ghost use Rattle.con_handles.specs.Words.Handles.{Table};
    ghost use Rattle.con_handles.specs.Places.{listed};

    ghost Value = { Table };

    ghost view = { λ a. record { open_ones = listed 0 a.places.items; spare = a.spare } };

    ghost invariant = { λ a. (a.spare ≤ 1) × (a.spare * 16384 ≤ vec_len a.places) × (vec_len a.places ≤ 16384) };
}

impl Handles {
    /// A table with no handle, and room for none.
    #[tactic(auto, unfolding(crate::specs::Places::listed))]
    pub fn new(alloc: Global) -> Handles
        ensures new { result ≡ record { open_ones = []; spare = 0 } }
        ensures table { IsTable result.open_ones }
    {
        Handles {
            places: Vec::new(alloc),
            spare: 0,
        }
    }

    /// Makes room for one handle.
    pub fn reserve(&mut self) -> Result<(), OutOfMemory>
        ensures ok { OnOk result (self.new ≡ with_room self.old) }
        ensures err { OnErr result (self.new ≡ self.old) }
        ensures table { IsTable self.new.open_ones }
    {
        if self.spare < 1 {
            places::fill(&mut self.places)?;
            self.spare = 1;
        }
        Ok(())
    }

    /// Whether the process has all of its 64 handles.
    pub fn is_full(&self, process: u8) -> bool
        ensures limit { IsTrue result ↔ (new_number self.now.open_ones process ≡ Err Code.Limit) }
        ensures count { IsTrue result ↔ (count_of self.now.open_ones process ≡ 64) }
    {
        match self.next(process) {
            Ok(_) => false,
            Err(_) => true,
        }
    }

    /// The number that `open` would give: the process's least free one, from 1 on. `Limit`: the process has 64.
    pub fn next(&self, process: u8) -> Result<u32, Code>
        ensures number { result ≡ new_number self.now.open_ones process }
        ensures limit { (result ≡ Err Code.Limit) ↔ (count_of self.now.open_ones process ≡ 64) }
        ensures why { IfErr result (λ code. code ≡ Code.Limit) }
        ensures free { IfOk result (λ n. is_used self.now.open_ones process n ≡ false) }
        ensures within { IfOk result (λ n. (1 ≤ n) × (n ≤ 64)) }
        ensures table { IsTable self.now.open_ones }
    {
        let number = places::first_free(self.places.as_slice(), process);
        if number <= places::MOST {
            Ok(number)
        } else {
            Err(Code::Limit)
        }
    }

    // Fills the place of a number that is free.
    fn fill(&mut self, process: u8, number: u32, held: Held)
        requires room { 0 < self.old.spare }
        requires low { 1 ≤ number }
        requires high { number ≤ 64 }
        requires free { is_used self.old.open_ones process number ≡ false }
        ensures state { self.new ≡ record { open_ones = entered (handle_of process number held) self.old.open_ones; spare = self.old.spare - 1 } }
        ensures table { IsTable self.new.open_ones }
    {
        places::put(self.places.as_mut_slice(), process, number, held);
        self.spare = 0;
    }

    // The same, and what it does to the handles of an object.
    fn put(&mut self, process: u8, number: u32, held: Held)
        requires room { 0 < self.old.spare }
        requires low { 1 ≤ number }
        requires high { number ≤ 64 }
        requires free { is_used self.old.open_ones process number ≡ false }
        ensures state { self.new ≡ record { open_ones = entered (handle_of process number held) self.old.open_ones; spare = self.old.spare - 1 } }
        ensures table { IsTable self.new.open_ones }
        ensures counted { (t : Object → Bool) → tally (on t) self.new.open_ones ≡ (if t held.object then 1 else 0) + tally (on t) self.old.open_ones }
    {
        self.fill(process, number, held);
    }

    // The handle of a process and a number.
    fn find(&self, process: u8, number: u32) -> Option<Handle>
        ensures is { result ≡ find_handle self.now.open_ones process number }
        ensures low { OnSome result (1 ≤ number) }
        ensures high { OnSome result (number ≤ 64) }
        ensures table { IsTable self.now.open_ones }
    {
        places::found(self.places.as_slice(), process, number)
    }

    // The process's handle with the least number.
    fn least(&self, process: u8) -> Option<Handle>
        ensures is { result ≡ least_of self.now.open_ones process }
        ensures found { IfSome result (λ h. find_handle self.now.open_ones process h.number ≡ Some h) }
        ensures process { IfSome result (λ h. h.process ≡ process) }
        ensures low { IfSome result (λ h. 1 ≤ h.number) }
        ensures high { IfSome result (λ h. h.number ≤ 64) }
        ensures least { IfSome result (λ h. (m : ℕ) → is_used self.now.open_ones process m ≡ true → h.number ≤ m) }
        ensures table { IsTable self.now.open_ones }
    {
        places::least(self.places.as_slice(), process)
    }

    // Empties the place of a number.
    fn empty(&mut self, process: u8, number: u32)
        requires low { 1 ≤ number }
        requires high { number ≤ 64 }
        ensures state { self.new ≡ closed self.old process number }
        ensures table { IsTable self.new.open_ones }
    {
        places::remove(self.places.as_mut_slice(), process, number);
    }

    // The same where a handle has the number, and what it does to the handles of an object.
    fn remove(&mut self, process: u8, number: u32, one: Handle)
        requires low { 1 ≤ number }
        requires high { number ≤ 64 }
        requires found { find_handle self.old.open_ones process number ≡ Some one }
        requires table { IsTable self.old.open_ones }
        ensures state { self.new ≡ closed self.old process number }
        ensures table { IsTable self.new.open_ones }
        ensures counted { (t : Object → Bool) → (if t one.object then 1 else 0) + tally (on t) self.new.open_ones ≡ tally (on t) self.old.open_ones }
    {
        // It stands in the clauses alone: `found`, and what is counted.
        let _ = one;
        self.empty(process, number);
    }

    /// Opens the process's least free number, from 1 on. `Limit`: the process has 64.
    pub fn open(&mut self, process: u8, object: Object, rights: u8) -> Result<u32, Code>
        requires { 0 < self.old.spare }
        ensures number { result ≡ new_number self.old.open_ones process }
        ensures state { self.new ≡ opened self.old process object rights }
        ensures limit { (result ≡ Err Code.Limit) ↔ (count_of self.old.open_ones process ≡ 64) }
        ensures free { IfOk result (λ n. is_used self.old.open_ones process n ≡ false) }
        ensures table { IsTable self.new.open_ones }
        ensures counted { IfOk result (λ _. (t : Object → Bool)
            → tally (on t) self.new.open_ones ≡ (if t object then 1 else 0) + tally (on t) self.old.open_ones) }
    {
        let number = self.next(process)?;
        let held = Held { object, rights };
        self.put(process, number, held);
        Ok(number)
    }

    /// What a handle stands for. `BadHandle`: the process has no such number, or it is of another kind; `Denied`: a bit
    /// of `right` is missing.
    pub fn look(&self, process: u8, handle: u32, kind: Kind, right: u8) -> Result<Object, Code>
        ensures answer { result ≡ look self.now.open_ones process handle kind right }
        ensures table { IsTable self.now.open_ones }
    {
        match self.find(process, handle) {
            Some(one) => places::may(one, kind, right),
            None => Err(Code::BadHandle),
        }
    }

    /// Removes a handle, and gives what it stood for. `BadHandle`: the process has no such number.
    pub fn close(&mut self, process: u8, handle: u32) -> Result<Object, Code>
        ensures object { result ≡ object_of self.old.open_ones process handle }
        ensures ok { OnOk result (self.new ≡ closed self.old process handle) }
        ensures err { OnErr result (self.new ≡ self.old) }
        ensures table { IsTable self.new.open_ones }
        ensures counted { IfOk result (λ o. (t : Object → Bool) → (if t o then 1 else 0) + tally (on t) self.new.open_ones ≡ tally (on t) self.old.open_ones) }
    {
        match self.find(process, handle) {
            Some(one) => {
                self.remove(process, handle, one);
                Ok(one.object)
            }
            None => Err(Code::BadHandle),
        }
    }

    /// Removes the process's handle with the least number, and gives what it stood for. None: it has no handle.
    pub fn take_any(&mut self, process: u8) -> Option<Object>
        ensures object { result ≡ option_map (λ h. h.object) (least_of self.old.open_ones process) }
        ensures state { self.new ≡ taken self.old process }
        ensures table { IsTable self.new.open_ones }
        ensures counted { IfSome result (λ o. (t : Object → Bool)
            → (if t o then 1 else 0) + tally (on t) self.new.open_ones ≡ tally (on t) self.old.open_ones) }
        ensures least { IfSome (least_of self.old.open_ones process) (λ h. (m : ℕ) → is_used self.old.open_ones process m ≡ true → h.number ≤ m) }
    {
        let one = self.least(process)?;
        self.remove(process, one.number, one);
        Some(one.object)
    }
}

//! What the console notes of the line reads that are open.
ghost use Rattle.std.specs.Prelude.{◌≡◌, ℕ, ◌-◌, ◌<◌, ◌^◌, ◌++◌, ◌∷◌, [], true, max, not, OnOk, OnErr};
ghost use Rattle.std.specs.List.{position_or_len, position};
ghost use Rattle.con_machine.specs.State.{noted_of, without_noted};
ghost use Rattle.con_machine.specs.Words.State.{is_noted};
ghost use Rattle.con_machine.specs.Serving.{note_changed};
ghost use Rattle.con_machine.specs.Words.Serving.{cell_before};

use crate::reads::noted::Noted;
use con_page::Origin;
use con_units::{BufferId, OutOfMemory};
use std::alloc::Global;
use std::marker::Model;

/// The notes, in the order in which the reads began. Contracts also see for how many more there is room.
#[derive(Drop)]
pub struct Notes {
    list: Vec<Noted>,
    spare: usize,
}

impl Model for Notes {
    ghost use Rattle.std.specs.Prelude.{◌+◌, ◌≤◌, vec_len, vec_capacity};
    ghost use Rattle.con_machine.specs.Kept.{Noting};

    ghost Value = { Noting };

    ghost view = { λ a. record { list = a.list.items; spare = a.spare } };

    ghost invariant = { λ a. vec_len a.list + a.spare ≤ vec_capacity a.list };
}

fn try_find(notes: &[Noted], process: u8) -> Option<usize>
    ensures { result ≡ position (is_noted process) notes.now }
{
    notes.iter().position(|note| note.process == process)
}

// The place of a process's note, or how many notes there are.
fn place_of(notes: &[Noted], process: u8) -> usize
    ensures { result ≡ position_or_len (is_noted process) notes.now }
{
    match try_find(notes, process) {
        Some(i) => i,
        None => notes.len(),
    }
}

fn note_of(notes: &[Noted], process: u8) -> Option<Noted>
    ensures { result ≡ noted_of notes.now process }
{
    let i = place_of(notes, process);
    if i < notes.len() {
        let note = notes[i];
        Some(note)
    } else {
        None
    }
}

fn start(notes: &mut [Noted], process: u8, buffer: BufferId, birth: u64, width: u16, x: u16, y: u16)
    requires inside { x < width }
    requires low { y < 2 ^ 15 }
    ensures { notes.new ≡ note_changed (λ n. record n { buffer = buffer; birth = birth; origin = cell_before width x y n.ahead }) notes.old process }
{
    let i = place_of(notes, process);
    if i < notes.len() {
        let note = &mut notes[i];
        note.start(buffer, birth, width, x, y);
    }
}

fn set_origin(notes: &mut [Noted], process: u8, origin: Origin)
    ensures { notes.new ≡ note_changed (λ n. record n { origin = origin }) notes.old process }
{
    let i = place_of(notes, process);
    if i < notes.len() {
        let note = &mut notes[i];
        note.set_origin(origin);
    }
}

fn wake(notes: &mut [Noted], process: u8)
    ensures { notes.new ≡ note_changed (λ n. record n { woken = true }) notes.old process }
{
    let i = place_of(notes, process);
    if i < notes.len() {
        let note = &mut notes[i];
        note.wake();
    }
}

impl Notes {
    /// No note, and room for none.
    pub fn new(alloc: Global) -> Notes
        ensures { result ≡ record { list = []; spare = 0 } }
    {
        Notes {
            list: Vec::new(alloc),
            spare: 0,
        }
    }

    /// Makes room for one note.
    pub fn reserve(&mut self) -> Result<(), OutOfMemory>
        ensures ok { OnOk result (self.new ≡ record self.old { spare = max self.old.spare 1 }) }
        ensures err { OnErr result (self.new ≡ self.old) }
    {
        if self.spare < 1 {
            if self.list.reserve(1).is_err() {
                return Err(OutOfMemory);
            }
            self.spare = 1;
        }
        Ok(())
    }

    /// Puts a note last.
    pub fn put(&mut self, note: Noted)
        requires { 0 < self.old.spare }
        ensures { self.new ≡ record { list = self.old.list ++ note ∷ []; spare = self.old.spare - 1 } }
    {
        self.list.push_reserved(note);
        self.spare -= 1;
    }

    /// The note of a process's read.
    pub fn of(&self, process: u8) -> Option<Noted>
        ensures { result ≡ noted_of self.now.list process }
    {
        note_of(self.list.as_slice(), process)
    }

    /// The read becomes the first one, while the cursor stands at a place of a buffer whose rows have this width.
    pub fn start(&mut self, process: u8, buffer: BufferId, birth: u64, width: u16, x: u16, y: u16)
        requires inside { x < width }
        requires low { y < 2 ^ 15 }
        ensures { self.new ≡ record self.old {
          list = note_changed (λ n. record n { buffer = buffer; birth = birth; origin = cell_before width x y n.ahead }) self.old.list process;
        } }
    {
        start(
            self.list.as_mut_slice(),
            process,
            buffer,
            birth,
            width,
            x,
            y,
        );
    }

    /// The line begins at another cell.
    pub fn set_origin(&mut self, process: u8, origin: Origin)
        ensures { self.new ≡ record self.old { list = note_changed (λ n. record n { origin = origin }) self.old.list process } }
    {
        set_origin(self.list.as_mut_slice(), process, origin);
    }

    /// A masked control ended the read.
    pub fn wake(&mut self, process: u8)
        ensures { self.new ≡ record self.old { list = note_changed (λ n. record n { woken = true }) self.old.list process } }
    {
        wake(self.list.as_mut_slice(), process);
    }

    /// Drops the note of a process's read.
    pub fn drop_of(&mut self, process: u8)
        ensures { self.new ≡ record self.old { list = without_noted self.old.list process } }
    {
        self.list.retain(
            |note|
                ensures { result ≡ not (is_noted process note.now) }
            { note.process != process },
        );
    }
}

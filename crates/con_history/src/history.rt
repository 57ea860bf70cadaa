//! The lines of one program.
ghost use Rattle.std.specs.Prelude.{◌≡◌, ℕ, ◌≤◌, ◌<◌, ◌-◌, List, [], ◌∷◌, ◌++◌, Option, Some, None, length, take, drop, slice_index_or, IfOk, if◌then◌else◌, nat_eq};
ghost use Rattle.std.specs.List.{starts_with};
ghost use Rattle.con_units.specs.Words.Units.{same_units};
ghost use Rattle.con_history.specs.Histories.{ProgramLines, newest, added, last_that_begins, found};
ghost use Rattle.con_history.specs.Parts.{without, shortened, is_busy};

use crate::kept::{Kept, whole_sum};
use circular_buffer::HeapCircularBuffer;
use con_units::{OutOfMemory, Units};
use std::alloc::Global;
use std::marker::Model;

/// A program's lines, oldest first, of which there are at most so many.
pub struct History {
    program: Units,
    lines: HeapCircularBuffer<Kept>,
}

impl Model for History {
    ghost use Rattle.con_history.specs.Histories.{ProgramLines};
    ghost use Rattle.con_history.specs.Words.Histories.{IsShort};
    ghost use Rattle.std.specs.Prelude.{All};

    ghost Value = { ProgramLines };

    ghost view = { λ h. record { program = h.program; lines = h.lines.items; limit = h.lines.capacity } };

    ghost invariant = { λ h. All IsShort h.lines.items };
}

// By hand, so that what drops one has this call in its proof, and not all that lies in one.
impl Drop for History {
    fn drop(self) {
        let History {
            program: _,
            lines: _,
        } = self;
    }
}

/// Whether two texts have the same units.
pub fn same(a: &Units, b: &Units) -> bool
    ensures { result ≡ same_units a.now b.now }
{
    a.as_slice() == b.as_slice()
}

// Puts the oldest line last, or removes it where it is the same.
fn turn_once(lines: &mut HeapCircularBuffer<Kept>, line: &Units)
    requires { 0 < length lines.old.items }
    ensures lines { lines.new.items ≡ drop 1 lines.old.items ++ without line.now (take 1 lines.old.items) }
    ensures capacity { lines.new.capacity ≡ lines.old.capacity }
{
    // Its contract says that the lines are within the capacity, so that the oldest has room again: for the clause `lines`.
    let _len = lines.len();
    if let Some(oldest) = lines.pop_front() {
        if same(oldest.units(), line) {
            return;
        }
        let _ = lines.try_push_back(oldest);
    }
}

// Removes each line that is the same.
fn remove_same(lines: &mut HeapCircularBuffer<Kept>, line: &Units)
    ensures lines { lines.new.items ≡ without line.now lines.old.items }
    ensures capacity { lines.new.capacity ≡ lines.old.capacity }
{
    for _ in 0..lines.len() {
        turn_once(lines, line);
    }
}

// Puts a line last. The oldest one goes where there is no room.
fn push(lines: &mut HeapCircularBuffer<Kept>, line: Kept)
    ensures lines { lines.new.items ≡ newest lines.old.capacity (lines.old.items ++ line ∷ []) }
    ensures capacity { lines.new.capacity ≡ lines.old.capacity }
{
    lines.push_back(line);
}

// Moves the newest lines into an empty buffer of another capacity.
fn move_newest(from: &mut HeapCircularBuffer<Kept>, to: &mut HeapCircularBuffer<Kept>)
    requires { to.old.items ≡ [] }
    ensures moved { to.new.items ≡ newest to.old.capacity from.old.items }
    ensures capacity { to.new.capacity ≡ to.old.capacity }
    ensures emptied { from.new.items ≡ [] }
{
    while let Some(oldest) = from.pop_front() {
        push(to, oldest);
    }
}

// The line at a place, oldest first.
fn line_at<'a>(lines: &'a HeapCircularBuffer<Kept>, k: usize) -> &'a Kept
    requires { k < length lines.now.items }
    ensures { (d : List ℕ) → result.now ≡ slice_index_or lines.now.items k d }
{
    match lines.get(k) {
        Some(line) => line,
        None => unreachable!(),
    }
}

// The newest line, among those from `low` on and below `high`, that begins with these units.
fn newest_match(
    lines: &HeapCircularBuffer<Kept>,
    start: &[u16],
    low: usize,
    high: usize,
) -> Option<usize>
    requires order { low ≤ high }
    requires within { high ≤ length lines.now.items }
    ensures { result ≡ last_that_begins start.now lines.now.items low (high - low) }
{
    let sum = whole_sum(start);
    let mut k = high;
    while low < k {
        k -= 1;
        if line_at(lines, k).begins_with(start, sum) {
            return Some(k);
        }
    }
    None
}

impl History {
    /// No lines of a program, with memory for so many.
    pub fn new(alloc: Global, program: &Units, limit: usize) -> Result<History, OutOfMemory>
        ensures { IfOk result (λ h. h ≡ record { program = program.now; lines = []; limit = limit }) }
    {
        let program = program.copied()?;
        match HeapCircularBuffer::with_capacity(alloc, limit) {
            Ok(lines) => Ok(History { program, lines }),
            Err(_) => Err(OutOfMemory),
        }
    }

    /// Whether these are the lines of a program.
    pub fn is_of(&self, program: &Units) -> bool
        ensures { result ≡ same_units self.now.program program.now }
    {
        same(&self.program, program)
    }

    /// Whether the program is among these.
    pub fn is_one_of(&self, programs: &[Units]) -> bool
        ensures { result ≡ is_busy programs.now self.now.program }
    {
        programs.iter().any(|one| same(one, &self.program))
    }

    /// How many lines there are.
    pub fn count(&self) -> usize
        ensures { result ≡ length self.now.lines }
    {
        self.lines.len()
    }

    /// The line at a place, oldest first.
    pub fn at(&self, k: usize) -> &Units
        requires { k < length self.now.lines }
        ensures line { (d : List ℕ) → result.now ≡ slice_index_or self.now.lines k d }
        ensures short { length result.now ≤ 1024 }
    {
        line_at(&self.lines, k).units()
    }

    /// Puts a line last, unless it is empty.
    pub fn add(&mut self, line: Units, no_duplicates: bool)
        requires { length line ≤ 1024 }
        ensures { self.new ≡ record self.old { lines = added no_duplicates self.old.limit self.old.lines line } }
    {
        let lines = &mut self.lines;
        if line.is_empty() {
            return;
        }
        if no_duplicates {
            remove_same(lines, &line);
        }
        push(lines, Kept::new(line));
    }

    /// The first line that begins with these units, from before `from` down and then from the newest down to `from`.
    pub fn search(&self, start: &[u16], from: usize) -> Option<usize>
        requires { from ≤ length self.now.lines }
        ensures { result ≡ found start.now self.now.lines from }
    {
        match newest_match(&self.lines, start, 0, from) {
            Some(k) => Some(k),
            None => newest_match(&self.lines, start, from, self.lines.len()),
        }
    }

    /// Removes all lines.
    pub fn clear(&mut self)
        ensures { self.new ≡ record self.old { lines = [] } }
    {
        self.lines.clear();
    }

    /// Moves the newest lines into an empty buffer, whose capacity is the limit from then on.
    pub fn move_into(&mut self, mut to: HeapCircularBuffer<Kept>)
        requires { to.items ≡ [] }
        ensures { self.new ≡ shortened to.capacity self.old }
    {
        move_newest(&mut self.lines, &mut to);
        self.lines = to;
    }
}

//! The edited line.
ghost use Rattle.std.specs.Prelude.{◌≡◌, ℕ, ◌+◌, ◌≤◌, ◌<◌, ◌==◌, length, not, [], ◌++◌, vec_capacity, if◌then◌else◌, ◌⊎◌, drop, take, IfOk};
ghost use Rattle.con_line.specs.Line.{LineText, back_while, on_while, typed, erased_at, recalled_as, completed_by, matched_as};
ghost use Rattle.con_line.specs.Words.Line.{IsLine, pressed, edit_between};
ghost use Rattle.con_units.specs.Units.{is_space, is_other};
ghost use Rattle.con_units.specs.Words.Units.{first_difference};

use crate::edit::Edit;
use crate::press::Press;
use con_units::limits::LINE_UNITS;
use con_units::{OutOfMemory, Units};
use std::alloc::Global;
use std::marker::Model;

const SPACE: u16 = 32;

/// A text of at most 1,024 units, its caret, and whether typed units are put in.
#[derive(Drop)]
pub struct Line {
    units: Vec<u16>,
    caret: usize,
    insert: bool,
}

impl Model for Line {
    ghost use Rattle.std.specs.Prelude.{◌≤◌, vec_capacity};
    ghost use Rattle.con_line.specs.Line.{LineText};
    ghost use Rattle.con_line.specs.Words.Line.{IsLine};

    ghost Value = { LineText };

    ghost view = { λ a. record { units = a.units.items; caret = a.caret; insert = a.insert } };

    ghost invariant = { λ a. IsLine (record { units = a.units.items; caret = a.caret; insert = a.insert }) × (1024 ≤ vec_capacity a.units) };
}

// The place of the first unit, of those that end before `from`, that is a space or isn't one.
fn back_over(units: &[u16], from: usize, spaces: bool) -> usize
    requires { from ≤ length units.now }
    ensures is { result ≡ (if spaces then back_while is_space units.now from else back_while is_other units.now from) }
    ensures within { result ≤ from }
{
    let mut i = from;
    while 0 < i && (units[i - 1] == SPACE) == spaces {
        i -= 1;
    }
    i
}

// The place after the units, from `from` on, that are spaces or aren't.
fn on_over(units: &[u16], from: usize, spaces: bool) -> usize
    requires { from ≤ length units.now }
    ensures is { result ≡ (if spaces then on_while is_space units.now from else on_while is_other units.now from) }
    ensures within { result ≤ length units.now }
{
    let mut i = from;
    while i < units.len() && (units[i] == SPACE) == spaces {
        i += 1;
    }
    i
}

// The place after the units, from `from` on, that are `unit`.
fn on_equal(units: &[u16], from: usize, unit: u16) -> usize
    requires { from ≤ length units.now }
    ensures is { result ≡ on_while (λ u. u == unit) units.now from }
    ensures within { result ≤ length units.now }
{
    let mut i = from;
    while i < units.len() && units[i] == unit {
        i += 1;
    }
    i
}

// The first place at which two texts differ.
fn common(old: &[u16], new: &[u16]) -> usize
    ensures is { result ≡ first_difference old.now new.now }
    ensures within { result ≤ length old.now }
{
    let mut i = 0;
    while i < old.len() && i < new.len() && old[i] == new[i] {
        i += 1;
    }
    i
}

// Writes over what stands after `kept`, in memory that is there.
fn replace(units: &mut Vec<u16>, kept: usize, with: &[u16])
    requires kept { kept ≤ length units.old.items }
    requires fits { kept + length with.now ≤ 1024 }
    requires spare { 1024 ≤ vec_capacity units.old }
    ensures items { units.new.items ≡ take kept units.old.items ++ with.now }
    ensures spare { 1024 ≤ vec_capacity units.new }
{
    units.truncate(kept);
    let _ = units.extend_from_slice(with);
}

impl Line {
    /// An empty line, with memory for 1,024 units. Typed units are put in, or else written over.
    pub fn new(alloc: Global, insert: bool) -> Result<Line, OutOfMemory>
        ensures { IfOk result (λ l. l ≡ record { units = []; caret = 0; insert = insert }) }
    {
        match Vec::with_capacity(alloc, LINE_UNITS) {
            Ok(units) => Ok(Line {
                units,
                caret: 0,
                insert,
            }),
            Err(_) => Err(OutOfMemory),
        }
    }

    /// The units of the text.
    pub fn text(&self) -> &[u16]
        ensures text { result.now ≡ self.now.units }
        ensures line { IsLine self.now }
    {
        // A field that is read opens the invariant, for the clause `line`.
        let _caret = self.caret;
        self.units.as_slice()
    }

    /// The place of the caret, from 0 to the length of the text.
    pub fn caret(&self) -> u16
        ensures caret { result ≡ self.now.caret }
        ensures line { IsLine self.now }
    {
        self.caret as u16
    }

    /// The text, in the memory that the line had.
    pub fn into_units(self) -> Units
        ensures text { result ≡ self.units }
        ensures few { length result ≤ 1024 }
    {
        Units(self.units)
    }

    // An edit that changed no unit.
    fn unchanged(&self) -> Edit
        ensures { result ≡ edit_between self.now.units self.now.units }
    {
        let len = self.units.len() as u16;
        Edit {
            first: len,
            before: len,
        }
    }

    fn move_to(&mut self, caret: usize) -> Edit
        requires { caret ≤ length self.old.units }
        ensures line { self.new ≡ record self.old { caret = caret } }
        ensures edit { result ≡ edit_between self.old.units self.new.units }
    {
        self.caret = caret;
        self.unchanged()
    }

    fn turn_insert(&mut self) -> Edit
        ensures line { self.new ≡ record self.old { insert = not self.old.insert } }
        ensures edit { result ≡ edit_between self.old.units self.new.units }
    {
        self.insert = !self.insert;
        self.unchanged()
    }

    fn put(&mut self, unit: u16) -> Edit
        ensures line { self.new ≡ typed self.old unit }
        ensures edit { result ≡ edit_between self.old.units self.new.units }
    {
        let caret = self.caret;
        let len = self.units.len();
        if caret < len && !self.insert {
            let same = self.units[caret] == unit;
            self.units[caret] = unit;
            self.caret = caret + 1;
            Edit {
                first: if same { len } else { caret } as u16,
                before: len as u16,
            }
        } else if len < LINE_UNITS {
            let first = on_equal(&self.units, caret, unit);
            let _ = self.units.insert(caret, unit);
            self.caret = caret + 1;
            Edit {
                first: first as u16,
                before: len as u16,
            }
        } else {
            self.unchanged()
        }
    }

    // The unit at a place goes, and the caret is there.
    fn erase(&mut self, at: usize) -> Edit
        requires { at < length self.old.units }
        ensures line { self.new ≡ erased_at self.old at }
        ensures edit { result ≡ edit_between self.old.units self.new.units }
    {
        let before = self.units.len() as u16;
        let first = on_equal(&self.units, at + 1, self.units[at]) - 1;
        self.units.remove(at);
        self.caret = at;
        Edit {
            first: first as u16,
            before,
        }
    }

    fn clear(&mut self) -> Edit
        ensures line { self.new ≡ record self.old { units = []; caret = 0 } }
        ensures edit { result ≡ edit_between self.old.units self.new.units }
    {
        let before = self.units.len() as u16;
        self.units.clear();
        self.caret = 0;
        Edit { first: 0, before }
    }

    // The text is a line of the history. The caret goes to its end, or stays.
    fn recall(&mut self, recalled: &[u16]) -> Edit
        requires { length recalled.now ≤ 1024 }
        ensures line { self.new ≡ recalled_as self.old recalled.now }
        ensures edit { result ≡ edit_between self.old.units self.new.units }
    {
        if recalled.is_empty() {
            return self.unchanged();
        }
        let before = self.units.len() as u16;
        let first = common(&self.units, recalled) as u16;
        replace(&mut self.units, 0, recalled);
        self.caret = self.units.len();
        Edit { first, before }
    }

    fn complete(&mut self, recalled: &[u16]) -> Edit
        requires { length recalled.now ≤ 1024 }
        ensures line { self.new ≡ completed_by self.old recalled.now }
        ensures edit { result ≡ edit_between self.old.units self.new.units }
    {
        let caret = self.caret;
        if recalled.len() <= caret {
            return self.unchanged();
        }
        let before = self.units.len() as u16;
        let rest = &recalled[caret..];
        let first = caret + common(&self.units[caret..], rest);
        replace(&mut self.units, caret, rest);
        self.caret = recalled.len();
        Edit {
            first: first as u16,
            before,
        }
    }

    fn match_with(&mut self, recalled: &[u16]) -> Edit
        requires few { length recalled.now ≤ 1024 }
        requires matches { (recalled.now ≡ []) ⊎ (self.old.caret ≤ length recalled.now) }
        ensures line { self.new ≡ matched_as self.old recalled.now }
        ensures edit { result ≡ edit_between self.old.units self.new.units }
    {
        if recalled.is_empty() {
            return self.unchanged();
        }
        let before = self.units.len() as u16;
        let first = common(&self.units, recalled) as u16;
        replace(&mut self.units, 0, recalled);
        Edit { first, before }
    }

    /// Applies a key. `recalled` is the line of the history that the key brings in, which has at most 1,024 units:
    /// empty for other keys, and where there is no such line. For [`Press::Match`] it is empty or reaches the caret,
    /// as a line does that begins with the text up to there.
    pub fn press(&mut self, key: Press, recalled: &[u16]) -> Edit
        requires few { length recalled.now ≤ 1024 }
        requires matches { key ≡ Press.Match → (recalled.now ≡ []) ⊎ (self.old.caret ≤ length recalled.now) }
        ensures line { self.new ≡ pressed self.old key recalled.now }
        ensures edit { result ≡ edit_between self.old.units self.new.units }
    {
        let caret = self.caret;
        let len = self.units.len();
        match key {
            Press::Unit(unit) => self.put(unit),
            Press::Left => self.move_to(caret.saturating_sub(1)),
            Press::Right => self.move_to((caret + 1).min(len)),
            Press::WordLeft => {
                let word = back_over(&self.units, caret, true);
                let place = back_over(&self.units, word, false);
                self.move_to(place)
            }
            Press::WordRight => {
                let space = on_over(&self.units, caret, false);
                let place = on_over(&self.units, space, true);
                self.move_to(place)
            }
            Press::Home => self.move_to(0),
            Press::End => self.move_to(len),
            Press::Back if caret != 0 => self.erase(caret - 1),
            Press::Delete if caret < len => self.erase(caret),
            Press::Insert => self.turn_insert(),
            Press::Clear => self.clear(),
            Press::Recall => self.recall(recalled),
            Press::RestOfLast => self.complete(recalled),
            Press::Match => self.match_with(recalled),
            Press::Back | Press::Delete | Press::Nothing => self.unchanged(),
        }
    }
}

//! The read.
ghost use Rattle.std.specs.Prelude.{◌≡◌, ℕ, ◌+◌, ◌-◌, ◌≤◌, ◌==◌, List, [], ◌∷◌, ◌++◌, Bool, false, not, length, take, drop, bit_and, vec_len, vec_capacity, IfOk, if◌then◌else◌};
ghost use Rattle.con_line.specs.Line.{LineText};
ghost use Rattle.con_history.specs.Histories.{lines_of};
ghost use Rattle.con_alias.specs.Words.Aliases.{has_control};
ghost use Rattle.con_cooked.specs.Cooked.{CookedRead, Moment, line_of, is_return, after_press, answer_of, histories_after};
ghost use Rattle.con_cooked.specs.Words.Cooked.{progress_of};
ghost use Rattle.con_cooked.specs.Parts.{split_by, lines_for};

use crate::keys::{LineKey, is_return, read_key};
use crate::mask::waking_unit;
use crate::moment::Stamped;
use crate::progress::{Echo, Progress};
use crate::recall::EditedLine;
use con_alias::Aliases;
use con_history::Histories;
use con_line::{Edit, Line};
use con_records::Record;
use con_units::{OutOfMemory, Past, Units};
use std::alloc::Global;
use std::marker::Model;
use std::snapshot::Snapshot;

/// The input mode bit that the insert flag starts from (`ENABLE_INSERT_MODE`).
const INSERT_MODE: u32 = 0x0020;
/// 4,096 units of an expansion and the ends of its lines.
const ANSWER_UNITS: usize = 5122;

/// A line read. How it began and its presses are kept in proofs alone.
#[derive(Drop)]
pub struct Cooked {
    program: Units,
    mask: u32,
    edited: EditedLine,
    woken: u16,
    out: Vec<u16>,
    began: Snapshot<EditedLine>,
    presses: Past<Stamped>,
}

impl Model for Cooked {
    ghost use Rattle.std.specs.Prelude.{◌≡◌, ◌≤◌, [], vec_capacity};
    ghost use Rattle.con_cooked.specs.Cooked.{CookedRead};
    ghost use Rattle.con_cooked.specs.Parts.{opened, line_after, woken_after};

    ghost Value = { CookedRead };

    ghost view = { λ r. record {
      program = r.program;
      insert = r.began.value.line.insert;
      initial = r.began.value.line.units;
      mask = r.mask;
      presses = r.presses;
    } };

    ghost invariant = { λ r. (line_after r.mask (opened r.began.value.line.insert r.began.value.line.units) r.presses ≡ r.edited)
        × (woken_after r.mask r.presses ≡ r.woken) × (r.out.items ≡ []) × (5122 ≤ vec_capacity r.out) };
}

// The four numbers of a change.
fn echo(edit: Edit, line: &Line) -> Echo
    ensures { result ≡ record { offset = edit.first; end = length line.now.units; blanks = edit.before - length line.now.units; caret = line.now.caret } }
{
    let end = line.text().len() as u16;
    Echo {
        offset: edit.first,
        end,
        blanks: edit.before.saturating_sub(end),
        caret: line.caret(),
    }
}

// What a key that is not masked answers.
fn unmasked(key: LineKey, echo: Echo) -> Progress
    ensures { result ≡ (if is_return key then Progress.Done echo else Progress.Going echo) }
{
    if is_return(key) {
        Progress::Done(echo)
    } else {
        Progress::Going(echo)
    }
}

// Appends units, in memory that is there.
fn append(out: &mut Vec<u16>, units: &[u16])
    requires { vec_len out.old + length units.now ≤ vec_capacity out.old }
    ensures out { out.new.items ≡ out.old.items ++ units.now }
    ensures room { vec_capacity out.old ≤ vec_capacity out.new }
{
    let _ = out.extend_from_slice(units);
}

// A text with a control where its caret is, in memory that is there.
fn split(out: &mut Vec<u16>, control: u16, line: &Line)
    requires empty { out.old.items ≡ [] }
    requires spare { 5122 ≤ vec_capacity out.old }
    ensures { out.new.items ≡ split_by control line.now }
{
    let caret = line.caret() as usize;
    let text = line.text();
    append(out, &text[..caret]);
    append(out, &[control]);
    append(out, &text[caret..]);
}

// The lines that a text stands for, in memory that is there.
fn expand(out: &mut Vec<u16>, aliases: &Aliases, program: &Units, text: &[u16])
    requires few { length text.now ≤ 1024 }
    requires empty { out.old.items ≡ [] }
    requires spare { 5122 ≤ vec_capacity out.old }
    ensures { out.new.items ≡ lines_for aliases.now.programs program.now text.now }
{
    if !aliases.expand(program, text, out) {
        append(out, text);
        append(out, &[13, 10]);
    }
}

impl Cooked {
    /// A line read of a program, by the read's input mode: the line begins with this text, of at most 1,024 units and without
    /// a control (`has_control` of con_alias tells), and its caret at the end. `mask` has a bit for each control, 1 to 31, that
    /// wakes the read. All memory up to the read's end is taken here.
    pub fn begin(
        alloc: Global,
        program: Units,
        mode: u32,
        initial: &[u16],
        mask: u32,
    ) -> Result<Cooked, OutOfMemory>
        requires few { length initial.now ≤ 1024 }
        requires plain { has_control initial.now ≡ false }
        ensures { IfOk result (λ r. r ≡ record { program = program; insert = not (bit_and mode 0x20 == 0); initial = initial.now; mask = mask; presses = [] }) }
    {
        let insert = mode & INSERT_MODE != 0;
        let edited = EditedLine::new(alloc, insert, initial)?;
        let began = Snapshot::of(&edited);
        match Vec::with_capacity(alloc, ANSWER_UNITS) {
            Ok(out) => Ok(Cooked {
                program,
                mask,
                edited,
                woken: 0,
                out,
                began,
                presses: Past::new(),
            }),
            Err(_) => Err(OutOfMemory),
        }
    }

    /// Applies one record, with the histories as they are at this moment. Woken exactly where it is a key-down of a masked unit,
    /// 1 to 31, whatever key it is; else done exactly where it is a key-down of return.
    pub fn press(&mut self, pressed: &Record, histories: &Histories) -> Progress
        ensures reading { self.new ≡ after_press self.old pressed.now histories.now }
        ensures progress { result ≡ progress_of self.old pressed.now histories.now }
    {
        self.presses
            .push(Stamped::of(pressed, histories, &self.program));
        self.woken = waking_unit(self.mask, pressed);
        if self.woken != 0 {
            return Progress::Woken;
        }
        let key = read_key(pressed);
        let edit = self.edited.press(key, histories, &self.program);
        let echo = echo(edit, self.edited.line());
        unmasked(key, echo)
    }

    /// The units of the line.
    pub fn text(&self) -> &[u16]
        ensures text { result.now ≡ (line_of self.now).line.units }
        ensures few { length result.now ≤ 1024 }
    {
        self.edited.line().text()
    }

    /// Adds the line to the program's history, and gives the lines that it stands for, each ended by CR LF: those of its
    /// expansion, or else the line itself. A read that its last press woke adds nothing, and gives the units before the caret,
    /// the control, and the units from the caret on.
    pub fn finish(self, histories: &mut Histories, aliases: &Aliases) -> Units
        ensures answer { result ≡ answer_of self aliases.now.programs }
        ensures histories { histories.new ≡ histories_after self histories.old }
    {
        let Cooked {
            program,
            mask: _,
            edited,
            woken,
            mut out,
            began: _,
            presses: _,
        } = self;
        if woken != 0 {
            split(&mut out, woken, edited.line());
            return Units(out);
        }
        expand(&mut out, aliases, &program, edited.line().text());
        histories.add(&program, edited.into_units());
        Units(out)
    }
}
